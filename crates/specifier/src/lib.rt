// Specifiers: `Specifier::parse`, the path of one in which something is escaped, and the tail of a slice.

#![tactic(auto)]

ghost use Rattle.std.specs.Prelude.{◌≡◌, ◌++◌, IfOk, length, drop};
ghost use mathlib.Core.List.{flat_map};
ghost use Rattle.definition.specs.Text.{utf8};
ghost use Rattle.definition.specs.Path.{limited};
ghost use Rattle.definition.specs.Specifier.{body, unescape, parse_specifier};
ghost use Rattle.path.specs.Meaning.{path_of};
ghost use Rattle.specifier.specs.Meaning.{IsFirstHash, written, parts_of, meant};

use path::PathBuf;

// What stands from a place on, nothing where the place is past the end.
pub fn tail(s: &[u8], at: usize) -> &[u8]
    ensures { result.now ≡ drop at s.now }
{
    &s[at.min(s.len())..]
}

// How many bytes stand before the fragment, which begins at the first "#", save the first byte, that does not follow byte 0.
fn body_len(s: &[u8]) -> usize
    ensures { result ≡ length (body s.now) }
{
    let found = s
        .windows(2)
        .position(|pair| pair[0] != 0 && pair[1] == b'#');
    match found {
        Some(i) => i + 1,
        None => s.len(),
    }
}

// The same by the place of the first "#" behind the first byte, or the end: it begins the fragment, unless byte 0 stands before it.
#[tactic(auto, using(crate::proofs::Fragment::fragment_first, crate::proofs::Fragment::fragment_later, crate::proofs::Fragment::body_inside))]
fn fragment_at(s: &[u8], hash: usize) -> usize
    requires { IsFirstHash s.now hash }
    ensures { result ≡ length (body s.now) }
{
    if hash < s.len() && s[hash - 1] == 0 {
        hash + body_len(tail(s, hash))
    } else {
        hash
    }
}

// The path of a specifier in which something is escaped, of what stands before the query.
#[tactic(auto, unfolding(definition::specs::Path::add_extension))]
pub fn unescaped(s: &[u8]) -> PathBuf
    ensures { path_of result ≡ limited (flat_map utf8 (unescape s.now)) }
{
    PathBuf::new().append_unescaped(s)
}

// The path of a specifier: as it stands there, or with a "#" before the fragment escaped, and then it is what `unescaped` makes of it.
#[derive(Clone, Copy)]
pub enum Path<'a> {
    Plain(&'a [u8]),
    Escaped(&'a [u8]),
}

// `SpecifierError`
#[derive(Clone, Copy, Debug, PartialEq, Eq)]
pub enum SpecifierError {
    Empty,
}

// A parsed specifier: a path, a query that begins with "?", and a fragment that begins with "#". One that is missing is empty.
#[derive(Clone, Copy)]
pub struct Specifier<'a> {
    pub path: Path<'a>,
    pub query: &'a [u8],
    pub fragment: &'a [u8],
}

impl<'a> Specifier<'a> {
    pub fn parse(s: &'a [u8]) -> Result<Specifier<'a>, SpecifierError>
        ensures parsed { meant result ≡ parts_of (parse_specifier s.now) }
        ensures whole { IfOk result (λ r. written r.path ++ r.query.now ++ r.fragment.now ≡ s.now) }
    {
        let hash = text::find(s, b'#', 1).min(s.len());
        let (body, fragment) = s.split_at(fragment_at(s, hash));
        let (path, query) = body.split_at(text::find(body, b'?', 0));
        if path.is_empty() {
            return Err(SpecifierError::Empty);
        }
        // Before the fragment stands no "#", save the first byte, but escaped ones.
        let path = if hash < body.len() {
            Path::Escaped(path)
        } else {
            Path::Plain(path)
        };
        Ok(Specifier {
            path,
            query,
            fragment,
        })
    }
}
