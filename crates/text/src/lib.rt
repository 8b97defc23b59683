// Bytes: equality, order, search, counts, copy, zero fill.

#![tactic(auto)]

ghost use Rattle.std.specs.Prelude.{◌≡◌, ◌+◌, ◌-◌, ◌++◌, ℕ, List, min, length, drop, take, replicate};
ghost use Rattle.text.specs.Zeros.{zero_from_is};
ghost use Rattle.definition.specs.Text.{equal, equal_ignoring_case, smaller, starts_with, ends_with, count, contains, contains_text, before, before_last, overwrite, zero_from};

pub fn equal(a: &[u8], b: &[u8]) -> bool
    ensures { result ≡ equal a.now b.now }
{
    a == b
}

pub fn eq_ignore_ascii_case(a: &[u8], b: &[u8]) -> bool
    ensures { result ≡ equal_ignoring_case a.now b.now }
{
    a.eq_ignore_ascii_case(b)
}

pub fn starts_with(s: &[u8], prefix: &[u8]) -> bool
    ensures { result ≡ starts_with prefix.now s.now }
{
    s.starts_with(prefix)
}

pub fn ends_with(s: &[u8], suffix: &[u8]) -> bool
    ensures { result ≡ ends_with suffix.now s.now }
{
    s.ends_with(suffix)
}

// Whether a comes before b, byte by byte.
pub fn less(a: &[u8], b: &[u8]) -> bool
    ensures { result ≡ smaller a.now b.now }
{
    a < b
}

// Whether the byte occurs.
pub fn contains(s: &[u8], b: u8) -> bool
    ensures { result ≡ contains b s.now }
{
    s.contains(&b)
}

// Whether the text occurs.
pub fn contains_text(s: &[u8], t: &[u8]) -> bool
    ensures { result ≡ contains_text t.now s.now }
{
    t.len() == 0 || s.windows(t.len()).any(|part| t == part)
}

// How often the byte occurs.
pub fn count(s: &[u8], b: u8) -> usize
    ensures { result ≡ count b s.now }
{
    // `filter` and `count` were tried, and take nearly twice as long: LLVM counts many bytes at a time only in a loop.
    let mut n: usize = 0;
    for x in s {
        if *x == b {
            n += 1;
        }
    }
    n
}

// The place of the first b at or after `at`, or the end.
pub fn find(s: &[u8], b: u8, at: usize) -> usize
    ensures { result ≡ at + length (before b (drop at s.now)) }
{
    let rest = &s[at.min(s.len())..];
    at + rest.iter().position(|x| *x == b).unwrap_or(rest.len())
}

// The place of the last b, or the end.
pub fn rfind(s: &[u8], b: u8) -> usize
    ensures { result ≡ length (before_last b s.now) }
{
    s.iter().rposition(|x| *x == b).unwrap_or(s.len())
}

// How many of n elements have room from a place on, where there are `size` in all.
pub fn room(size: usize, at: usize, n: usize) -> usize
    ensures { result ≡ min n (size - at) }
{
    n.min(size.saturating_sub(at))
}

// The n bytes from a place on, as far as s reaches.
pub fn part(s: &[u8], at: usize, n: usize) -> &[u8]
    ensures { result.now ≡ take n (drop at s.now) }
{
    let from = at.min(s.len());
    &s[from..from + room(s.len(), at, n)]
}

// Puts src at a place of dst, as far as dst reaches.
pub fn copy_at(dst: &mut [u8], at: usize, src: &[u8])
    ensures { dst.new ≡ overwrite at src.now dst.old }
{
    // By `copy_from_slice` the library would need memmove from whoever links it.
    let n = room(dst.len(), at, src.len());
    for i in 0..n {
        dst[at + i] = src[i];
    }
}

// A number of a buffer that zeros may fill.
pub trait Zero: Copy {
    ghost zero: { Self };

    ghost zero_from: { ℕ → List Self → List Self };

    fn zero() -> Self
        ensures { result ≡ zero };

    ghost fills: { (at : ℕ) (d : List Self) → zero_from at d ≡ take at d ++ replicate (length d - at) zero };
}

impl Zero for u8 {
    ghost zero = { 0 };

    ghost zero_from = { zero_from };

    ghost fills = { zero_from_is };

    fn zero() -> u8 {
        0
    }
}

impl Zero for u32 {
    ghost zero = { 0 };

    ghost zero_from = { zero_from };

    ghost fills = { zero_from_is };

    fn zero() -> u32 {
        0
    }
}

// Zeros from a place on.
pub fn zero_from<T: Zero>(dst: &mut [T], at: usize)
    ensures { dst.new ≡ T.zero_from at dst.old }
{
    let from = at.min(dst.len());
    for x in &mut dst[from..] {
        *x = T::zero();
    }
}
