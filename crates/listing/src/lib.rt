// The lent listing: its numbers, its search, and where two of its paths part. Every public function takes any bytes.
//
// On the way of a search a slice is passed on as `&*x`, which goes in registers. Passed on as `x`, the parameter itself stands in memory, the
// compiler cannot see that the path's address is not kept, and whoever built the path by value copies its 2 KiB.

#![tactic(auto)]

ghost use Rattle.std.specs.Prelude.{◌≡◌, ◌&&◌, true, false, List, ℕ, ◌+◌, ◌-◌, ◌*◌, ◌≤◌, ◌<◌, min, length, drop, take, get_or, leb};
ghost use Rattle.definition.specs.Text.{equal, smaller};
ghost use Rattle.definition.specs.Listing.{no_entry, number32, entry_count, contents_length, is_directory_of, found_at, place_at};
ghost use Rattle.definition.specs.Ask.{asked};
ghost use Rattle.laws.specs.ListingSteps.{part, path_length_at};
ghost use Rattle.laws.specs.ListingOrder.{Shared};
ghost use Rattle.laws.specs.SearchLaws.{Stopping};
ghost use Rattle.listing.specs.Places.{start_of};
ghost use Rattle.listing.specs.Meaning.{Searched, place_of, Attempted, Placed, SameListing, has_path, NoneBefore, SoughtFor, WordsOf, high_first, parting_of};

mod spot;
mod words;

use spot::Spot;
use words::Words;

// The number that stands in place of the contents' length of a directory.
pub const DIRECTORY: usize = 4294967295;

// The number at k. Its bytes are written out: `first_chunk` keeps a test of the length, and a search takes half as long again.
fn number_at(l: &[u8], k: usize) -> usize
    requires { k + 4 ≤ length l.now }
    ensures is { result ≡ number32 (drop k l.now) }
    ensures small { result < 4294967296 }
{
    u32::from_le_bytes([l[k], l[k + 1], l[k + 2], l[k + 3]]) as usize
}

// Eight bytes at k as a number, the first the lowest, as the machine reads them: enough to tell whether they are equal.
fn low(s: &[u8], k: usize) -> u64
    requires { k + 8 ≤ length s.now }
    ensures { result ≡ number32 (drop k s.now) + 4294967296 * number32 (drop (k + 4) s.now) }
{
    u64::from_le_bytes([
        s[k],
        s[k + 1],
        s[k + 2],
        s[k + 3],
        s[k + 4],
        s[k + 5],
        s[k + 6],
        s[k + 7],
    ])
}

fn byte(l: &[u8], i: usize) -> u8
    ensures { result ≡ get_or l.now i 0 }
{
    l.get(i).copied().unwrap_or(0)
}

// The number that some bytes begin with; what is missing counts as zeros. Of four bytes it costs no test.
pub fn read_number(t: &[u8]) -> usize
    ensures is { result ≡ number32 t.now }
    ensures small { result < 4294967296 }
{
    if t.len() >= 4 {
        return number_at(t, 0);
    }
    u32::from_le_bytes([byte(t, 0), byte(t, 1), byte(t, 2), byte(t, 3)]) as usize
}

// The number at k; what is missing counts as zeros.
fn number(l: &[u8], k: usize) -> usize
    ensures is { result ≡ number32 (drop k l.now) }
    ensures small { result < 4294967296 }
{
    read_number(l.get(k..).unwrap_or(&[]))
}

// How many bytes the contents have, by the number that the listing has for them: a directory has none.
pub fn contents_length(c: usize) -> usize
    ensures is { result ≡ contents_length c }
    ensures small { result ≤ c }
{
    if c == DIRECTORY { 0 } else { c }
}

// at + k, or the end where that is past it.
fn reach(at: usize, k: usize, len: usize) -> usize
    requires { at ≤ len }
    ensures { result ≡ min (at + k) len }
{
    at.saturating_add(k).min(len)
}

// Where an entry's path ends, and its contents.
#[derive(Clone, Copy)]
pub struct Place {
    pub end: usize,
    pub next: usize,
    pub directory: bool,
}

// What a search finds: a file's contents are l[start..end].
#[derive(Clone, Copy, Debug, PartialEq, Eq)]
pub enum Found {
    Absent,
    Directory,
    File { start: usize, end: usize },
}

// The i-th of n entries, whose path begins at `at`, as far as the bytes go.
fn clamped(l: &[u8], n: usize, i: usize, at: usize) -> Place
    requires { (n ≡ entry_count l.now) × (n < 4294967296) × (i < n) × (at ≤ length l.now) }
    ensures { Placed l.now i at result }
{
    let k = number(l, 8 + 4 * i);
    let c = number(l, 8 + 4 * n + 4 * i);
    let end = reach(at, k, l.len());
    let next = reach(end, contents_length(c), l.len());
    Place {
        end,
        next,
        directory: c == DIRECTORY,
    }
}

// Bytes that both texts begin with, counted four at a time.
fn shared(p: &[u8], q: &[u8]) -> usize
    ensures { Shared p.now q.now result }
{
    let fours = p.len().min(q.len()) / 4;
    for k in 0..fours {
        if number_at(p, 4 * k) != number_at(q, 4 * k) {
            return 4 * k;
        }
    }
    4 * fours
}

// Equal texts, compared four bytes at a time.
fn same(a: &[u8], b: &[u8]) -> bool
    ensures { result ≡ equal a.now b.now }
{
    let k = shared(a, b);
    text::equal(&a[k..], &b[k..])
}

// Where a path parts from the one before it, which it is larger than; `None` where it is not larger.
pub fn rise(p: &[u8], q: &[u8]) -> Option<usize>
    ensures { result ≡ parting_of p.now q.now }
{
    let k = shared(p, q);
    match p[k..].iter().zip(&q[k..]).position(|(a, b)| a != b) {
        Some(i) => (p[k + i] < q[k + i]).then_some(k + i),
        None => (p.len() < q.len()).then_some(p.len()),
    }
}

// Whether a text is below another.
fn is_below(p: &[u8], q: &[u8]) -> bool
    ensures { result ≡ smaller p.now q.now }
{
    rise(p, q).is_some()
}

// The lengths are compared before any byte, and the last eight bytes before the others: paths of a listing share long beginnings.
fn matches(l: &[u8], at: usize, end: usize, path: &[u8]) -> bool
    requires { at ≤ end }
    ensures { result ≡ (leb end (length l.now) && equal (part l.now at end) path.now) }
{
    if end - at != path.len() {
        return false;
    }
    if end > l.len() {
        return false;
    }
    if end - at >= 8 {
        if low(l, end - 8) != low(path, end - at - 8) {
            return false;
        }
    }
    same(&l[at..end], path)
}

// The search where the lengths run past the end: no listing that passes the check comes here.
fn search_clamped(l: &[u8], n: usize, path: &[u8]) -> Found
    requires { (n ≡ entry_count l.now) × (n < 4294967296) }
    ensures { place_of result ≡ place_at l.now path.now }
{
    let mut at = reach(0, 8 + 8 * n, l.len());
    for i in 0..n {
        let p = clamped(l, n, i, at);
        let here = &l[at..p.end];
        if !is_below(here, path) {
            if !same(here, path) {
                return Found::Absent;
            }
            if p.directory {
                return Found::Directory;
            }
            return Found::File {
                start: p.end,
                end: p.next,
            };
        }
        at = p.next;
    }
    Found::Absent
}

// The first of the entries from `from` to `to` that has the path, or else entry `to`: the caller goes on from where it stops.
fn pass_others<'a>(from: Spot<'a>, to: usize, path: &[u8]) -> Spot<'a>
    requires { (from.index ≤ to) × (to ≤ from.count) }
    ensures same { SameListing from.entry result }
    ensures before { result.index ≤ to }
    ensures none { NoneBefore from.entry.listing.now path.now from.entry.index → NoneBefore from.entry.listing.now path.now result.index }
    ensures found { result.index < to → has_path from.entry.listing.now path.now result.index ≡ true }
{
    let mut spot = from;
    // A spot has its own index and step: a range would count the entries a second time, here and in the two loops below.
    while spot.index < to {
        if matches(spot.listing, spot.at, spot.end(), path) {
            return spot;
        }
        spot = spot.next();
    }
    spot
}

// Whether an entry's path lies within the bytes and is past the one sought.
fn is_past(spot: Spot<'_>, path: &[u8]) -> bool
    requires { spot.index < spot.count }
    ensures { result ≡ true → NoneBefore spot.entry.listing.now path.now spot.entry.index → place_at spot.entry.listing.now path.now ≡ no_entry }
{
    let l = spot.listing;
    let end = spot.end();
    end <= l.len() && is_below(path, &l[spot.at..end])
}

// The lengths of the entries run past the end of the listing.
#[derive(Clone, Copy)]
struct PastEnd;

// The first entry that has the path, which needs no order: lengths and last bytes are compared first. Now and then a path is compared whole:
// where it is past the one sought and none before it was equal, none is found, whatever follows.
fn first_equal<'a>(first: Spot<'a>, path: &[u8]) -> Result<Option<Spot<'a>>, PastEnd>
    requires { first.index ≡ 0 }
    ensures { SoughtFor first.entry path.now result }
{
    let n = first.count;
    let step = 32 + n / 8;
    let mut spot = first;
    while spot.index < n {
        let to = n.min(spot.index + step);
        spot = pass_others(spot, to, &*path);
        if spot.index < to {
            return Ok(Some(spot));
        }
        if spot.index < n && is_past(spot, &*path) {
            return Ok(None);
        }
    }
    if spot.at <= spot.listing.len() {
        Ok(None)
    } else {
        Err(PastEnd)
    }
}

// Eight bytes at k as a number, the first the highest: such numbers are in the order of their texts.
fn eight(s: &[u8], k: usize) -> u64
    requires { k + 8 ≤ length s.now }
    ensures { result ≡ high_first 8 0 (drop k s.now) }
{
    u64::from_be_bytes([
        s[k],
        s[k + 1],
        s[k + 2],
        s[k + 3],
        s[k + 4],
        s[k + 5],
        s[k + 6],
        s[k + 7],
    ])
}

// Whether the bytes from an entry's path on show that it is below the path of those words; false says nothing. What is smaller with all the
// bytes that follow is smaller by itself, so an entry's length need not be looked at.
fn starts_below(l: &[u8], at: usize, w: Words) -> bool
    requires { at < 9223372036854775808 }
    ensures { result ≡ true → (q : List ℕ) → WordsOf q w → smaller (drop at l.now) q ≡ true }
{
    at + 32 <= l.len() && w.surely_below(&l[at..])
}

// Whether every path before entry `to` is below the one sought. Entry `to` begins within the bytes, and so all before it lies within them.
fn all_below(first: Spot<'_>, to: usize, path: &[u8]) -> bool
    requires { (first.index ≡ 0) × (to ≤ first.count) × (start_of first.listing.now to ≤ length first.listing.now) }
    ensures { (result ≡ true → Stopping first.entry.listing.now path.now to (start_of first.entry.listing.now to)) × (result ≡ false → NoneBefore first.entry.listing.now path.now to → no_entry ≡ place_at first.entry.listing.now path.now) }
{
    let l = first.listing;
    let w = Words::of(&*path);
    let mut spot = first;
    while spot.index < to {
        if !starts_below(l, spot.at, w) && !is_below(&l[spot.at..spot.end()], path) {
            return false;
        }
        spot = spot.next();
    }
    true
}

// What a search finds that ends at an entry, whose path is the one sought.
fn found_entry(spot: Spot<'_>) -> Found
    requires { (spot.index < spot.count) × (spot.at + path_length_at spot.listing.now spot.index ≤ length spot.listing.now) }
    ensures { (q : List ℕ) → Stopping spot.entry.listing.now q spot.entry.index spot.entry.at → has_path spot.entry.listing.now q spot.entry.index ≡ true → place_of result ≡ place_at spot.entry.listing.now q }
{
    let end = spot.end();
    let c = spot.mark();
    if c == DIRECTORY {
        return Found::Directory;
    }
    Found::File {
        start: end,
        end: reach(end, c, spot.listing.len()),
    }
}

// The search where the tables lie within the bytes: the first path not below is the one sought if it is the first equal one and all before it
// are below.
fn search_tables(l: &[u8], n: usize, path: &[u8]) -> Result<Found, PastEnd>
    requires { n ≡ entry_count l.now }
    ensures { Attempted l.now path.now result }
{
    let first = Spot::first(&*l, n).ok_or(PastEnd)?;
    let Some(spot) = first_equal(first, &*path)? else {
        return Ok(Found::Absent);
    };
    if all_below(first, spot.index, &*path) {
        return Ok(found_entry(spot));
    }
    Ok(Found::Absent)
}

// What the path has in the listing, by the search that ends at the first path not below it. The clamped search has one call, so that it is
// compiled in place and no slice has to stand in memory.
pub fn search(l: &[u8], path: &[u8]) -> Found
    ensures { Searched l.now path.now result }
{
    let n = number(&*l, 0);
    match search_tables(&*l, n, &*path) {
        Ok(found) => found,
        Err(PastEnd) => search_clamped(&*l, n, &*path),
    }
}

// A file's contents, by the places that a search found.
pub fn contents(l: &[u8], start: usize, end: usize) -> &[u8]
    ensures { result.now ≡ part l.now start end }
{
    text::part(l, start, end.saturating_sub(start))
}

pub fn is_directory(l: &[u8], path: &[u8]) -> bool
    ensures { result ≡ is_directory_of l.now path.now }
{
    matches!(search(l, path), Found::Directory)
}

// The search for C, which `listing_c` exports, as bench/searches.rs times it: 0 nothing, 1 a directory, 2 a file.
pub fn listing_search(l: &[u8], path: &[u8]) -> u8
    ensures { result ≡ asked (found_at l.now path.now) }
{
    match search(l, path) {
        Found::Absent => 0,
        Found::Directory => 1,
        Found::File { .. } => 2,
    }
}
