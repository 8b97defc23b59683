// Whether bytes are UTF-8, by RFC 3629: no character in more bytes than it needs, no surrogate, and none past the largest.

#![tactic(auto)]

ghost use Rattle.std.specs.Prelude.{◌≡◌, List, ◌∷◌, ℕ};
ghost use Rattle.definition.specs.Text.{due_after, is_utf8_from, is_utf8};
ghost use Rattle.utf8.specs.Meaning.{due_of, meant};

// What a byte leaves due: how many bytes, and the bounds of the next of them.
#[derive(Clone, Copy)]
struct Owed {
    more: u8,
    low: u8,
    high: u8,
}

// What a byte that begins a character leaves due, if it begins one.
#[tactic(auto, using(std::proofs::lemmas::Bool::Decides::nat_tests), unfolding(definition::specs::Text::due_after, definition::specs::Text::within))]
fn opens(b: u8) -> Option<Owed>
    ensures { meant result ≡ due_after b }
{
    let (more, low, high) = match b {
        0..=127 => (0, 0, 0),
        194..=223 => (1, 128, 191),
        224 => (2, 160, 191),
        237 => (2, 128, 159),
        225..=239 => (2, 128, 191),
        240 => (3, 144, 191),
        241..=243 => (3, 128, 191),
        244 => (3, 128, 143),
        _ => return None,
    };
    Some(Owed { more, low, high })
}

// The state after one more byte, if that may come.
fn next(owed: Owed, b: u8) -> Option<Owed>
    ensures { (s : List ℕ) → is_utf8_from (b ∷ s) (due_of owed) ≡ is_utf8_from s (meant result) }
{
    if owed.more == 0 {
        return opens(b);
    }
    if b < owed.low || owed.high < b {
        return None;
    }
    Some(Owed {
        more: owed.more - 1,
        low: 128,
        high: 191,
    })
}

pub fn is_utf8(s: &[u8]) -> bool
    ensures { result ≡ is_utf8 s.now }
{
    // Most texts are ASCII, which is found many bytes at a time.
    if s.is_ascii() {
        return true;
    }
    let mut owed = Owed {
        more: 0,
        low: 0,
        high: 0,
    };
    for b in s {
        let Some(after) = next(owed, *b) else {
            return false;
        };
        owed = after;
    }
    owed.more == 0
}
