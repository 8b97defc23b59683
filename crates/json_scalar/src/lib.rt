// What stands between the strings and brackets of RFC 8259: white space, numbers, null, true and false, commas, colons
// and closing brackets.

#![tactic(auto, using(std::proofs::lemmas::Bool::Decides::nat_tests), unfolding(definition::specs::Text::within, definition::specs::Text::is_digit, definition::specs::Json::is_space, definition::specs::Json::digits, definition::specs::Json::sign, definition::specs::Json::exponent, definition::specs::Json::fraction, definition::specs::Json::integer, definition::specs::Json::starts_value, crate::specs::Scalars::scalar_of, crate::specs::Scalars::after_of, crate::specs::Scalars::colon_at))]

ghost use Rattle.std.specs.Prelude.{◌≡◌, ℕ, ◌≤◌, Bool, length, drop};
ghost use Rattle.definition.specs.Text.{is_digit, skip_while as after_all};
ghost use Rattle.definition.specs.Json.{is_space, skip_space, skip_digits, digits as digitsOf, starts_value, sign as sign_of, exponent as exponentOf, fraction as fractionOf, integer as integerOf, word as word_of};
ghost use Rattle.json_text.specs.Scanned.{Reads};
ghost use Rattle.json_scalar.specs.Scalars.{scalar_of, after_of, after_at, colon_at};

use json_text::{Fault, byte_at};

// White space of JSON.
fn is_space(b: u8) -> bool
    ensures { result ≡ is_space b }
{
    // A pattern of the four was tried: its range of two costs each byte that is none of them three tests in the place
    // of one.
    b == b' ' || b == b'\t' || b == b'\n' || b == b'\r'
}

// The place of the first byte from `at` on that fails a test.
fn skip_while<F: Fn(u8) -> bool>(m: &[u8], at: usize, test: F) -> usize
    requires { F.IsAlwaysCallable test }
    ensures { (p : ℕ → Bool) → ((b : ℕ) (r : Bool) → F.post test b r → r ≡ p b) → after_all p (drop at m.now) ≡ drop result m.now }
{
    // By `find` over the places a digit takes up to twice as long.
    for i in at..m.len() {
        if !test(m[i]) {
            return i;
        }
    }
    at.max(m.len())
}

// The place of the first byte from `at` on that is no white space.
pub fn skip_space(m: &[u8], at: usize) -> usize
    ensures { skip_space (drop at m.now) ≡ drop result m.now }
{
    skip_while(m, at, is_space)
}

// The place of the first byte from `at` on that is no digit.
fn skip_digits(m: &[u8], at: usize) -> usize
    ensures { skip_digits (drop at m.now) ≡ drop result m.now }
{
    skip_while(m, at, |b| b.is_ascii_digit())
}

// One digit or more.
fn digits(m: &[u8], at: usize) -> Result<usize, Fault>
    ensures { Reads m.now (digitsOf (drop at m.now)) result }
{
    match byte_at(m, at) {
        Some(b'0'..=b'9') => Ok(skip_digits(m, at + 1)),
        _ => Err(Fault::Malformed),
    }
}

// Past a sign, if one stands here.
fn sign(m: &[u8], at: usize) -> usize
    ensures { sign_of (drop at m.now) ≡ drop result m.now }
{
    match byte_at(m, at) {
        Some(b'+' | b'-') => at + 1,
        _ => at,
    }
}

fn exponent(m: &[u8], at: usize) -> Result<usize, Fault>
    ensures { Reads m.now (exponentOf (drop at m.now)) result }
{
    match byte_at(m, at) {
        Some(b'e' | b'E') => digits(m, sign(m, at + 1)),
        _ => Ok(at),
    }
}

fn fraction(m: &[u8], at: usize) -> Result<usize, Fault>
    ensures { Reads m.now (fractionOf (drop at m.now)) result }
{
    match byte_at(m, at) {
        Some(b'.') => exponent(m, digits(m, at + 1)?),
        _ => exponent(m, at),
    }
}

fn integer(m: &[u8], at: usize) -> Result<usize, Fault>
    ensures { Reads m.now (integerOf (drop at m.now)) result }
{
    match byte_at(m, at) {
        Some(b'0') => fraction(m, at + 1),
        Some(b'1'..=b'9') => fraction(m, skip_digits(m, at + 1)),
        _ => Err(Fault::Malformed),
    }
}

// The rest of null, true or false.
#[tactic(auto, using(crate::proofs::Words::word_there, crate::proofs::Words::word_other))]
fn word(m: &[u8], at: usize, rest: &[u8]) -> Result<usize, Fault>
    requires { at ≤ length m.now }
    ensures { Reads m.now (word_of rest.now (drop at m.now)) result }
{
    if m[at..].starts_with(rest) {
        Ok(at + rest.len())
    } else {
        Err(Fault::Malformed)
    }
}

// A value that is no string and opens no bracket.
pub fn scalar(m: &[u8], at: usize) -> Result<usize, Fault>
    ensures { Reads m.now (scalar_of (drop at m.now)) result }
{
    match byte_at(m, at) {
        Some(b't') => word(m, at + 1, b"rue"),
        Some(b'f') => word(m, at + 1, b"alse"),
        Some(b'n') => word(m, at + 1, b"ull"),
        Some(b'-') => integer(m, at + 1),
        _ => integer(m, at),
    }
}

// A byte with which a value can begin.
pub fn starts_value(b: u8) -> bool
    ensures { result ≡ starts_value b }
{
    matches!(
        b,
        b'0'..=b'9' | b'"' | b'{' | b'[' | b'-' | b't' | b'f' | b'n'
    )
}

// What stands behind an element or a member: the next one, or the end of them; where.
#[derive(Clone, Copy, Debug, PartialEq, Eq)]
pub enum Then {
    More(usize),
    Close(usize),
}

pub fn after(m: &[u8], at: usize, bracket: u8) -> Result<Then, Fault>
    ensures { after_of bracket (skip_space (drop at m.now)) ≡ after_at m.now result }
{
    let i = skip_space(m, at);
    match byte_at(m, i) {
        Some(b',') => Ok(Then::More(skip_space(m, i + 1))),
        Some(b) if b == bracket => Ok(Then::Close(i + 1)),
        _ => Err(Fault::Malformed),
    }
}

// The colon behind a name: where the value begins.
pub fn colon(m: &[u8], at: usize) -> Result<usize, Fault>
    ensures { Reads m.now (colon_at (skip_space (drop at m.now))) result }
{
    let i = skip_space(m, at);
    match byte_at(m, i) {
        Some(b':') => Ok(skip_space(m, i + 1)),
        _ => Err(Fault::Malformed),
    }
}
