// The numbers of tuples of tables: the ones of their words.
#![tactic(auto)]

ghost use Rattle.std.specs.Prelude.{◌≡◌, ◌≤◌, length, replicate};
ghost use Rattle.definition.proofs.CountLaws.{all_ones};
ghost use Rattle.counts.specs.Counting.{recounted, counted};

use tuples::table_words;

// The ones of some words.
fn count_words(words: &[u64]) -> usize
    requires { length words.now ≤ 16777216 }
    ensures { result ≡ all_ones words.now }
{
    words.iter().map(|w| w.count_ones() as usize).sum()
}

// The count of relation k becomes the number of tuples of its table of arity n, whose words start at off; what is no table of the store
// changes nothing.
pub fn recount(store: &[u64], off: usize, u: u8, n: usize, k: usize, counts: &mut [usize; 16])
    ensures { counts.new ≡ recounted store.now off u n k counts.old }
{
    if 4 < n {
        return;
    }
    let len = table_words(u, n);
    let room = store.len();
    if room < len {
        return;
    }
    if room - len < off {
        return;
    }
    if k < 16 {
        counts[k] = count_words(&store[off..off + len]);
    }
}

// The counts of some relations over u elements, whose tables stand one after another in the store; unused ones zero.
pub fn count_all(store: &[u64], relations: &[usize], u: u8) -> [usize; 16]
    requires { length relations.now ≤ 16 }
    ensures { result ≡ counted store.now u 0 0 relations.now (replicate 16 0) }
{
    let mut counts = [0usize; 16];
    let mut off: usize = 0;
    for (i, w) in relations.iter().enumerate() {
        let n = *w % 4;
        recount(store, off, u, n, i, &mut counts);
        off += table_words(u, n);
    }
    counts
}
