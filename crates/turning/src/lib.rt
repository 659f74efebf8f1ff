// Parts of two texts as parts of them in the other order. A text is read as text 0, so where another is read after it the parts so far are
// turned.
#![tactic(auto)]

ghost use Rattle.std.specs.Prelude.{◌≡◌, map};
ghost use Rattle.turning.specs.Turned.{turned};

fn turn_part(w: usize) -> usize
    ensures { result ≡ turned w }
{
    if w / 4 % 2 == 0 { w + 4 } else { w - 4 }
}

// Turns the parts of a list.
pub fn turn(words: &mut [usize])
    ensures { words.new ≡ map turned words.old }
{
    for w in words.iter_mut() {
        *w = turn_part(*w);
    }
}
