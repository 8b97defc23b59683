// The check of a lent listing: 30, 31 and 32, each over all entries. Every public function takes any bytes.

#![tactic(auto)]

ghost use Rattle.std.specs.Prelude.{◌≡◌, true, ◌&&◌, ◌≤◌, ◌<◌, length};
ghost use Rattle.std.specs.Option.{is_some};
ghost use Rattle.definition.specs.Text.{all};
ghost use Rattle.definition.specs.Listing.{rows, sizes_fit, first_is_root};
ghost use Rattle.laws.specs.ListingOrder.{Remarked, mark_of, in_order, sized};
ghost use Rattle.listing_check.specs.Meaning.{Stepped, verdict};

mod entries;

use entries::EntriesLeft;
use refusal::Refusal;

// The marks of the next path, of k bytes, from those of a path of n that shares j; v is its own.
fn remark(m: &mut [u8; 1025], j: usize, n: usize, k: usize, v: u8)
    requires behind { j < k }
    requires shared { j ≤ n }
    requires old { n ≤ 1024 }
    requires new { k ≤ 1024 }
    ensures { Remarked j n k v m.old m.new }
{
    m[j + 1..=n].fill(0);
    m[k] = v;
}

// An entry's own mark, where its path has v slashes.
fn mark_of(d: bool, v: u8) -> u8
    requires { v < 255 }
    ensures { result ≡ mark_of d v }
{
    if d { v + 1 } else { 0 }
}

// From the path p to the next, q, which is a directory or not, or `None` where a rule is broken; m has the marks of p, and then of q. Where
// the parent is a directory that was seen, it is a path, and only the last component of q is left to test.
fn step(p: &[u8], q: &[u8], d: bool, m: &mut [u8; 1025]) -> Option<()>
    requires before { length p.now ≤ 1024 }
    requires here { length q.now ≤ 1024 }
    ensures { Stepped p.now q.now d m.old m.new (is_some result) }
{
    let j = listing::rise(p, q)?;
    let slash = listing_rules::slash_before_name(q)?;
    // how many bytes are the parent's
    let k = slash.max(1);
    let v = m[k];
    if slash == 1 || k > j || v == 0 || v > 32 {
        return None;
    }
    remark(m, j, p.len(), q.len(), mark_of(d, v));
    Some(())
}

// 31 and the rule of depth, in one pass. mark[k] is 0, or the first k bytes of the path are a directory's, and one more than its depth.
fn ordered(l: &[u8]) -> bool
    requires sizes { sizes_fit l.now ≡ true }
    requires sized { all sized (rows l.now) ≡ true }
    ensures { result ≡ (first_is_root (rows l.now) && in_order (rows l.now)) }
{
    let mut left = EntriesLeft::new(l);
    let Some(root) = left.next() else {
        return false;
    };
    if !text::equal(root.path, b"/") || !root.directory {
        return false;
    }
    let mut before = root.path;
    let mut mark = [0u8; 1025];
    mark[1] = 1;
    for entry in left {
        let Some(()) = step(before, entry.path, entry.directory, &mut mark) else {
            return false;
        };
        before = entry.path;
    }
    true
}

// What the check says: the first of 30, 31 and 32 that is broken anywhere. Compiled by itself: within a lookup, the loops' counters would be
// kept in memory.
#[inline(never)]
pub fn check(l: &[u8]) -> Result<(), Refusal>
    ensures { result ≡ verdict l.now }
{
    if !listing_rules::sizes(l)
        || !EntriesLeft::new(l).all(|e| listing_rules::is_sized(e.path, e.contents))
    {
        return Err(Refusal::Sizes);
    }
    if !ordered(l) {
        // a path that is too deep comes before any other fault
        if !EntriesLeft::new(l).all(|e| text::count(e.path, b'/') <= 32) {
            return Err(Refusal::Sizes);
        }
        return Err(Refusal::Order);
    }
    if !EntriesLeft::new(l).all(|e| !(e.directory && listing_rules::is_manifest(e.path))) {
        return Err(Refusal::ManifestDirectory);
    }
    Ok(())
}
