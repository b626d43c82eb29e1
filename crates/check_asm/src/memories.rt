// Words of a memory.
// Stays (2, 3, 4): images are compared as numbers, by their own contract; a row ends at a place, which `take_while` would count again.
ghost use Rattle.std.specs.Prelude.{◌≡◌, ◌≤◌, ◌<◌, length, replicate};
ghost use Rattle.text.specs.Same.{same};
ghost use Rattle.check_asm.specs.Rows.{row_end};

use files::Cell;

// Whether every word is this one.
pub fn are_all<C: Cell>(words: &[C], word: C) -> bool
    ensures { result ≡ same (C.numbers words.now) (replicate (length words.now) (C.number word)) }
{
    let number = word.number();
    words.iter().all(|x| x.number() == number)
}

// Whether two images have the same words.
pub fn are_same(a: &[u64], b: &[u64]) -> bool
    ensures { result ≡ same a.now b.now }
{
    a == b
}

// The place after the words that follow the one at i and equal it.
pub fn row_end(words: &[u64], i: usize) -> usize
    requires { i < length words.now }
    ensures { (result ≡ row_end words.now i) × (i < result) × (result ≤ length words.now) }
{
    let word = words[i];
    for end in i + 1..words.len() {
        if words[end] != word {
            return end;
        }
    }
    words.len()
}
