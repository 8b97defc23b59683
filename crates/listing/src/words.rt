// The first bytes of the path that is sought, as numbers.

ghost use Rattle.listing.specs.Places.{Windows};

use crate::{eight, low};

// Its first 32 bytes, eight in a number, read once for all entries: those at 0, 8, 16 and 24, or in a shorter path the last eight instead.
// Such windows overlap, which leaves the order as it is. Of a path of less than eight bytes they are 0, and nothing is below that.
#[derive(Clone, Copy)]
pub struct Words {
    start: u64,
    next: u64,
    first: u64,
    at8: usize,
    second: u64,
    at16: usize,
    third: u64,
    at24: usize,
    fourth: u64,
    ghost windows: { Windows at8 at16 at24 },
}

impl Words {
    ghost use Rattle.std.specs.Prelude.{◌≡◌, true, List, ℕ, ◌-◌, ◌≤◌, ◌<◌, min, length};
    ghost use Rattle.definition.specs.Text.{smaller};
    ghost use Rattle.listing.specs.Meaning.{LowWord, HighWord, WordsOf};

    fn eight_or_zero(q: &[u8], k: usize) -> u64
        requires { k < 1024 }
        ensures { HighWord q.now k result }
    {
        if k + 8 <= q.len() { eight(&*q, k) } else { 0 }
    }

    fn low_or_zero(q: &[u8], k: usize) -> u64
        requires { k < 1024 }
        ensures { LowWord q.now k result }
    {
        if k + 8 <= q.len() { low(&*q, k) } else { 0 }
    }

    // Where the window at k of n bytes begins: so that it lies within them, if one does.
    fn window(n: usize, k: usize) -> usize
        ensures { result ≡ min k (n - 8) }
    {
        k.min(n.saturating_sub(8))
    }

    pub fn of(q: &[u8]) -> Words
        ensures { WordsOf q.now result }
    {
        let n = q.len();
        let b = Words::window(n, 8);
        let c = Words::window(n, 16);
        let d = Words::window(n, 24);
        Words {
            start: Words::low_or_zero(&*q, 0),
            next: Words::low_or_zero(&*q, b),
            first: Words::eight_or_zero(&*q, 0),
            at8: b,
            second: Words::eight_or_zero(&*q, b),
            at16: c,
            third: Words::eight_or_zero(&*q, c),
            at24: d,
            fourth: Words::eight_or_zero(&*q, d),
        }
    }

    // Whether its first 32 bytes show that a text is below the one of those words; false says nothing.
    pub(super) fn surely_below(self, p: &[u8]) -> bool
        requires { 32 ≤ length p.now }
        ensures { result ≡ true → (q : List ℕ) → WordsOf q self → smaller p.now q ≡ true }
    {
        if low(&*p, 0) != self.start {
            eight(&*p, 0) < self.first
        } else if low(&*p, self.at8) != self.next {
            eight(&*p, self.at8) < self.second
        } else {
            let a = eight(&*p, self.at16);
            a < self.third || a == self.third && eight(&*p, self.at24) < self.fourth
        }
    }
}
