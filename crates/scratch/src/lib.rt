// The scratch words: a new table is made there while the old ones are read, then it is moved to its place.
#![tactic(auto)]

ghost use Rattle.std.specs.Prelude.{◌≡◌, ◌+◌, ◌≤◌, length, take, drop, replicate};
ghost use Rattle.std.proofs.lemmas.List.Edits.{sets};

// Makes all words zero.
pub fn clear(words: &mut [u64])
    ensures { words.new ≡ replicate (length words.old) 0 }
{
    words.fill(0);
}

// Moves the len words from d on to the front, and leaves zeros behind. The front is a relation's table: its words are lent from its offset
// on, up to the end of the scratch words, since two parts of one slice cannot be lent at a time.
pub fn move_back(words: &mut [u64], len: usize, d: usize)
    requires { (len ≤ d) × (d + len ≤ length words.old) }
    ensures { words.new ≡ sets (sets words.old 0 (take len (drop d words.old))) d (replicate len 0) }
{
    words.copy_within(d..d + len, 0);
    clear(&mut words[d..d + len]);
}
