// What the check of a lent listing asks of its sizes, of one entry and of one path. Every public function takes any bytes.

#![tactic(auto)]

ghost use Rattle.std.specs.Prelude.{◌≡◌, Bool, true, ◌&&◌, ◌+◌, ◌*◌, ◌≤◌, ltb, length};
ghost use Rattle.definition.specs.Listing.{entry_count, sizes_fit, is_manifest, is_component};
ghost use Rattle.laws.specs.ListingSteps.{lengths_at};
ghost use Rattle.laws.specs.ListingNameLaws.{is_name};
ghost use Rattle.laws.specs.ListingOrder.{sized};
ghost use Rattle.listing_rules.specs.Meaning.{Plain, slash_before_name};

// The bytes behind the last "/" are package.json.
pub fn is_manifest(p: &[u8]) -> bool
    ensures { result ≡ is_manifest p.now }
{
    let Some(k) = p.len().checked_sub(12) else {
        return false;
    };
    text::equal(&p[k..], b"package.json") && (k == 0 || p[k - 1] == b'/')
}

// The sum of all lengths.
fn lengths(l: &[u8], n: usize) -> usize
    requires count { n ≡ entry_count l.now }
    requires few { n ≤ 1024 }
    requires tables { 8 + 8 * n ≤ length l.now }
    ensures { result ≡ lengths_at l.now 0 }
{
    let mut sum = 0;
    for i in 0..n {
        let j = 8 + 4 * i;
        let k = 8 + 4 * n + 4 * i;
        let c = listing::read_number(&l[k..k + 4]);
        sum += listing::read_number(&l[j..j + 4]) + listing::contents_length(c);
    }
    sum
}

// 30: the sizes and the sum of the lengths.
pub fn sizes(l: &[u8]) -> bool
    ensures { result ≡ sizes_fit l.now }
{
    let n = listing::read_number(l);
    let t = listing::read_number(text::part(l, 4, 4));
    l.len() <= 65536 && 1 <= n && n <= 1024 && l.len() == 8 + 8 * n + t && lengths(l, n) == t
}

// 30's rules of one entry, a directory or not: the path's length, and contents in a manifest only.
pub fn is_sized(path: &[u8], inner: &[u8]) -> bool
    ensures { (d : Bool) → result ≡ sized (record { path = path.entry.now; is_directory = d; contents = inner.now }) }
{
    path.len() <= 1024 && (inner.is_empty() || is_manifest(path))
}

#[tactic(auto, using(std::proofs::lemmas::Bool::Decides::nat_tests, crate::proofs::Names::none), unfolding(definition::specs::Listing::is_component))]
fn is_component(c: &[u8]) -> bool
    ensures { result ≡ is_component c.now }
{
    !c.is_empty() && !text::equal(c, b".") && !text::equal(c, b"..")
}

// A component that may stand in a path: plain bytes need no further look.
#[tactic(auto, using(std::proofs::lemmas::Bool::Decides::nat_tests), unfolding(laws::specs::ListingNameLaws::is_name))]
fn is_name(c: &[u8], plain: bool) -> bool
    requires { plain ≡ true → Plain c.now }
    ensures { result ≡ is_name c.now }
{
    is_component(c) && (plain || !text::contains(c, 0) && utf8::is_utf8(c))
}

// ASCII, and not 0.
fn is_plain(b: u8) -> bool
    ensures { result ≡ (ltb 0 b && ltb b 128) }
{
    b != 0 && b < 128
}

// The place of the last "/" of a path, where a name that may stand in a path follows it. Most names are plain, and of those each byte is looked at
// once: with `text::rfind`, and then `is_name` on what follows, the check of a listing took 1.2 to 1.3 times as long.
pub fn slash_before_name(q: &[u8]) -> Option<usize>
    ensures { result ≡ slash_before_name q.now }
{
    let mut plain = true;
    let mut slash = q.len();
    for i in (0..q.len()).rev() {
        if q[i] == b'/' {
            slash = i;
            break;
        }
        plain = plain && is_plain(q[i]);
    }
    let name = q.get(slash + 1..)?;
    is_name(name, plain).then_some(slash)
}
