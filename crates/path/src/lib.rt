// Paths: a path under construction, and path.rs.

#![tactic(auto)]

ghost use Rattle.std.specs.Prelude.{◌≡◌, ℕ, List, ◌&&◌, ◌||◌, true, ◌+◌, ◌≤◌, ◌<◌, eqb, length, take, drop, get_or, MatchOption, if◌then◌else◌};
ghost use mathlib.Core.List.{[], ◌++◌, flat_map};
ghost use Rattle.definition.specs.Text.{text, star, equal, starts_with, replace, utf8};
ghost use Rattle.definition.specs.Path.{built, too_long, and_path, limited, push, parent, add_extension, add_name_and_extension, manifest_of, name_of, component, push_all, normalize_with, pops, push_relative, normalize_relative, any_invalid, is_invalid_exports_target};
ghost use Rattle.definition.specs.Specifier.{unescape};
ghost use Rattle.laws.specs.PathLaws.{parts, root_of};
ghost use Rattle.path.specs.Meaning.{path_at, path_of, is_too_long, Roomy};

// The most bytes that a path has.
const LIMIT: usize = 2048;

// The length that marks an over-long path.
const TOO_LONG: usize = LIMIT + 1;

// A path under construction, by value. A length over the limit marks a path that was over-long: it has no text, and every
// method keeps it so.
#[derive(Drop)]
pub struct PathBuf {
    bytes: [u8; LIMIT],
    len: usize,
}

// The first n bytes, or all where there are fewer.
pub fn first(b: &[u8], n: usize) -> &[u8]
    ensures { result.now ≡ take n b.now }
{
    &b[..n.min(b.len())]
}

// How many bytes of a path are its parent.
#[tactic(auto, using(crate::proofs::Steps::parent_found, crate::proofs::Steps::parent_nothing))]
fn parent_len(p: &[u8]) -> usize
    ensures { (result ≤ length p.now) × (parent p.now ≡ take result p.now) }
{
    let k = text::rfind(p, b'/');
    if k < p.len() { k.max(1) } else { 0 }
}

pub fn parent(p: &[u8]) -> &[u8]
    ensures { result.now ≡ parent p.now }
{
    &p[..parent_len(p)]
}

// The bytes behind the last slash.
#[tactic(auto, using(crate::proofs::Steps::name_rest, crate::proofs::Steps::name_all))]
pub fn name_of(p: &[u8]) -> &[u8]
    ensures { result.now ≡ name_of p.now }
{
    let k = text::rfind(p, b'/');
    if k < p.len() { &p[k + 1..] } else { p }
}

// The steps. A method that has a loop is never compiled into its callers: they stay small.
impl PathBuf {
    // Writes a text behind the path.
    fn put(&mut self, t: &[u8])
        ensures { path_of self.new ≡ and_path (path_of self.old) (λ p. add_extension p t.now) }
    {
        let n = self.len;
        if n > LIMIT {
            return;
        }
        if t.len() > LIMIT - n {
            self.len = TOO_LONG;
            return;
        }
        text::copy_at(&mut self.bytes[n..n + t.len()], 0, t);
        self.len = n + t.len();
    }

    // Writes a slash behind the path, unless that is empty or ends in one.
    fn slash(&mut self)
        ensures { path_of self.new ≡ and_path (path_of self.old) (λ p. limited (push p [])) }
    {
        let Some(p) = self.as_slice() else {
            return;
        };
        if !p.is_empty() && !text::ends_with(p, b"/") {
            self.put(b"/");
        }
    }

    // Pushes a part: a slash comes before it, unless the path is empty or ends in one.
    fn join(&mut self, part: &[u8])
        ensures { path_of self.new ≡ and_path (path_of self.old) (λ p. limited (push p part.now)) }
    {
        self.slash();
        self.put(part);
    }

    // To the parent.
    #[tactic(auto, using(crate::proofs::Steps::up_parent))]
    fn up(&mut self)
        ensures { path_of self.new ≡ and_path (path_of self.old) (λ p. built (parent p)) }
    {
        if let Some(p) = self.as_slice() {
            self.len = parent_len(p);
        }
    }

    // Pushes the component of one part between slashes, as `push_normalized_component`; an empty part and "." are none.
    fn push_component(&mut self, part: &[u8])
        ensures { path_of self.new ≡ and_path (path_of self.old) (λ p. push_all (component part.now) p) }
    {
        if text::equal(part, b"..") {
            self.up();
        } else if !part.is_empty() && !text::equal(part, b".") {
            self.join(part);
        }
    }

    // Whether a path that is not over-long has a component to pop.
    fn pops(&self) -> bool
        ensures { (p : List ℕ) → path_of self.now ≡ built p → result ≡ pops p }
    {
        self.as_slice()
            .is_some_and(|p| !p.is_empty() && !text::equal(p, b"/"))
    }

    // The same, but ".." stays where nothing is left to pop.
    fn push_or_keep(&mut self, part: &[u8])
        ensures { path_of self.new ≡ and_path (path_of self.old) (λ p. limited (push_relative (component part.now) p)) }
    {
        if text::equal(part, b"..") && !self.pops() {
            self.join(part);
        } else {
            self.push_component(part);
        }
    }

    // Pushes the components of a text.
    #[inline(never)]
    fn push_parts(&mut self, sub: &[u8])
        ensures { path_of self.new ≡ and_path (path_of self.old) (λ p. push_all (parts sub.now) p) }
    {
        for part in sub.split(|b| *b == b'/') {
            self.push_component(part);
        }
    }

    // The same, but ".." stays where nothing is left to pop.
    #[inline(never)]
    fn push_relative_parts(&mut self, sub: &[u8])
        requires { Roomy (path_of self.old) (length sub.now) }
        ensures { path_of self.new ≡ and_path (path_of self.old) (λ p. built (push_relative (parts sub.now) p)) }
    {
        for part in sub.split(|b| *b == b'/') {
            self.push_or_keep(part);
        }
    }

    // Writes a text behind the path, another in place of each of its stars.
    #[inline(never)]
    fn put_replaced(&mut self, t: &[u8], pattern: &[u8])
        ensures { path_of self.new ≡ and_path (path_of self.old) (λ p. add_extension p (replace star pattern.now t.now)) }
    {
        for b in t {
            if *b == b'*' {
                self.put(pattern);
            } else {
                self.put(&[*b]);
            }
        }
    }

    // Writes a byte taken for a character.
    #[tactic(auto, using(crate::proofs::Widening::narrow, crate::proofs::Widening::wide))]
    fn widen(&mut self, c: u8)
        ensures { path_of self.new ≡ and_path (path_of self.old) (λ p. add_extension p (utf8 c)) }
    {
        if c < 128 {
            self.put(&[c]);
        } else {
            self.put(&[192 + c / 64, 128 + c % 64]);
        }
    }

    // Writes a text, each byte as a character, without the escapes.
    #[inline(never)]
    fn put_unescaped(&mut self, s: &[u8])
        ensures { path_of self.new ≡ and_path (path_of self.old) (λ p. add_extension p (flat_map utf8 (unescape s.now))) }
    {
        for (i, b) in s.iter().enumerate() {
            // Byte 0 before "#" leaves the path.
            if !text::starts_with(&s[i..], b"\0#") {
                self.widen(*b);
            }
        }
    }
}

// A method is small, so that the compiler puts it in place: then a chain of them copies no path.
impl PathBuf {
    #[tactic(auto, unfolding(crate::specs::Meaning::path_at))]
    pub fn new() -> PathBuf
        ensures { path_of result ≡ built [] }
    {
        PathBuf {
            bytes: [0; LIMIT],
            len: 0,
        }
    }

    // `add_extension`
    pub fn append(mut self, ext: &[u8]) -> PathBuf
        ensures { path_of result ≡ and_path (path_of self) (λ p. add_extension p ext.now) }
    {
        self.put(ext);
        self
    }

    // A text, with another in place of each of its stars.
    pub fn append_replaced(mut self, t: &[u8], pattern: &[u8]) -> PathBuf
        ensures { path_of result ≡ and_path (path_of self) (λ p. add_extension p (replace star pattern.now t.now)) }
    {
        self.put_replaced(t, pattern);
        self
    }

    // A text in which something is escaped: each byte is taken for a character, and byte 0 before "#" is left out.
    pub fn append_unescaped(mut self, s: &[u8]) -> PathBuf
        ensures { path_of result ≡ and_path (path_of self) (λ p. add_extension p (flat_map utf8 (unescape s.now))) }
    {
        self.put_unescaped(s);
        self
    }

    pub fn push(mut self, part: &[u8]) -> PathBuf
        ensures { path_of result ≡ and_path (path_of self) (λ p. limited (push p part.now)) }
    {
        self.join(part);
        self
    }

    // The components of a relative path, one after another.
    pub fn push_all(mut self, sub: &[u8]) -> PathBuf
        ensures { path_of result ≡ and_path (path_of self) (λ p. push_all (parts sub.now) p) }
    {
        self.push_parts(sub);
        self
    }

    // The same, but ".." stays where nothing is left to pop.
    fn push_relative(mut self, sub: &[u8]) -> PathBuf
        requires { Roomy (path_of self) (length sub.now) }
        ensures { path_of result ≡ and_path (path_of self) (λ p. built (push_relative (parts sub.now) p)) }
    {
        self.push_relative_parts(sub);
        self
    }

    pub fn pop(mut self) -> PathBuf
        ensures { path_of result ≡ and_path (path_of self) (λ p. built (parent p)) }
    {
        self.up();
        self
    }

    // The text of a path; an over-long one has none.
    #[tactic(auto, using(crate::proofs::Steps::text_or_long))]
    pub fn as_slice(&self) -> Option<&[u8]>
        ensures { MatchOption result (path_of self.now ≡ too_long) (λ t. path_of self.now ≡ built t.now) }
    {
        self.bytes.get(..self.len)
    }

    #[tactic(auto, using(crate::proofs::Steps::over_is))]
    pub fn over_long(self) -> bool
        ensures { result ≡ is_too_long (path_of self) }
    {
        self.len > LIMIT
    }
}

impl From<&[u8]> for PathBuf {
    ghost from_gives = { λ text path. path_of path ≡ limited text.now };

    #[tactic(auto, unfolding(definition::specs::Path::add_extension))]
    fn from(text: &[u8]) -> PathBuf {
        PathBuf::new().append(text)
    }
}

// A directory's manifest.
#[tactic(auto, unfolding(definition::specs::Path::manifest_of))]
pub fn manifest_path(dir: &[u8]) -> PathBuf
    ensures { path_of result ≡ and_path (limited dir.now) (λ p. limited (manifest_of p)) }
{
    PathBuf::from(dir).push(b"package.json")
}

pub fn add_extension(path: &[u8], ext: &[u8]) -> PathBuf
    ensures { path_of result ≡ and_path (limited path.now) (λ p. add_extension p ext.now) }
{
    PathBuf::from(path).append(ext)
}

// The slash comes even behind "/".
pub fn add_name_and_extension(path: &[u8], name: &[u8], ext: &[u8]) -> PathBuf
    ensures { path_of result ≡ and_path (limited path.now) (λ p. add_name_and_extension p name.now ext.now) }
{
    PathBuf::from(path).append(b"/").append(name).append(ext)
}

// A subpath from a base, with "./" before it: "." is dropped, ".." pops, and an empty or absolute one is taken from the base too.
#[tactic(auto, using(crate::proofs::Parts::with_dot))]
pub fn normalize_below(base: &[u8], sub: &[u8]) -> PathBuf
    ensures { path_of result ≡ normalize_with base.now (text "./" ++ sub.now) }
{
    PathBuf::from(base).push_all(sub)
}

// Whether a subpath is empty or absolute.
#[tactic(auto, using(crate::proofs::Steps::empty_is))]
fn is_whole(sub: &[u8]) -> bool
    ensures { result ≡ equal sub.now [] || starts_with (text "/") sub.now }
{
    sub.is_empty() || text::starts_with(sub, b"/")
}

// Puts a text in the place of a path.
#[tactic(auto, unfolding(definition::specs::Path::add_extension, crate::specs::Meaning::path_at))]
pub fn set(path: &mut PathBuf, text: &[u8])
    ensures { path_of path.new ≡ limited text.now }
{
    path.len = 0;
    path.put(text);
}

// Puts what `normalize_with` gives in the place of a path.
#[tactic(auto, using(crate::proofs::Parts::with_whole, crate::proofs::Parts::with_relative))]
pub fn set_normalized(path: &mut PathBuf, base: &[u8], subpath: &[u8])
    ensures { path_of path.new ≡ normalize_with base.now subpath.now }
{
    if is_whole(subpath) {
        set(path, subpath);
    } else {
        set(path, base);
        path.push_parts(subpath);
    }
}

// The same without "./": an empty or absolute subpath is the answer itself.
pub fn normalize_with(base: &[u8], sub: &[u8]) -> PathBuf
    ensures { path_of result ≡ normalize_with base.now sub.now }
{
    let mut p = PathBuf::new();
    set_normalized(&mut p, base, sub);
    p
}

// The "/" of an absolute path; nothing of any other.
fn root(p: &[u8]) -> &[u8]
    ensures { result.now ≡ root_of p.now }
{
    if text::starts_with(p, b"/") {
        first(p, 1)
    } else {
        first(p, 0)
    }
}

// A path without ".", and without ".." behind a component.
pub fn normalize_relative(p: &[u8]) -> PathBuf
    ensures { path_of result ≡ and_path (limited p.now) (λ q. built (normalize_relative q)) }
{
    if p.len() > LIMIT {
        return PathBuf::from(p);
    }
    let head = root(p);
    PathBuf::from(head).push_relative(&p[head.len()..])
}

#[tactic(auto, using(crate::proofs::Parts::invalid_up, crate::proofs::Parts::invalid_name))]
fn is_invalid_part(part: &[u8]) -> bool
    ensures { result ≡ any_invalid (component part.now) }
{
    text::equal(part, b"..") || text::eq_ignore_ascii_case(part, b"node_modules")
}

// Whether a component is ".." or, in any case of letters, node_modules.
pub fn is_invalid_exports_target(t: &[u8]) -> bool
    ensures { result ≡ is_invalid_exports_target t.now }
{
    t.split(|b| *b == b'/').any(is_invalid_part)
}
