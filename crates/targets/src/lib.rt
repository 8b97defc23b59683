// PACKAGE_TARGET_RESOLVE for a string, pattern keys, and the query and fragment so far.

#![tactic(auto)]

ghost use Rattle.std.specs.Prelude.{◌≡◌, List, [], ◌++◌, ℕ, ◌+◌, ◌≤◌, suc, length, drop, take, ◌&&◌, ◌||◌, leb};
ghost use Rattle.std.specs.Prelude.{if◌then◌else◌};
ghost use Rattle.std.proofs.Math.Option.{none, some};
ghost use Rattle.definition.specs.Text.{text, star, equal, starts_with, ends_with, replace, overwrite, utf8};
ghost use Rattle.definition.specs.Path.{limited};
ghost use Rattle.path.specs.Meaning.{path_of};
ghost use Rattle.definition.specs.Exports.{PATTERN_KEY_COMPARE, is_subpath_key, star_match, pattern_match, or_old, with_query_fragment, Request, target, target_path, normalize_string_target, string_target};
ghost use mathlib.Core.List.{flat_map};
ghost use Rattle.definition.specs.Specifier.{unescape, parse_specifier};
ghost use Rattle.specifier.specs.Meaning.{written, path_text};
ghost use Rattle.targets.specs.Keys.{rank_of, order_of, match_of};
ghost use Rattle.targets.specs.Contexts.{string_at, part_text, Inside, context_of};
ghost use Rattle.targets.specs.Answers.{outcome_at, answer_of, resolved, path_target, Asked, Texted};

use path::PathBuf;
use specifier::{Path, Specifier};
use std::cmp::Ordering;

// What the order of two keys depends on: the bytes up to the first star (all where there is none), and their number.
#[derive(Clone, Copy, Debug, PartialEq, Eq)]
pub struct Rank {
    pub base: usize,
    pub starred: bool,
    pub len: usize,
}

#[tactic(auto, using(crate::proofs::Keys::rank_starred, crate::proofs::Keys::rank_plain))]
pub fn rank_of(key: &[u8]) -> Rank
    ensures { result ≡ rank_of key.now }
{
    let len = key.len();
    let star = text::find(key, b'*', 0);
    let starred = star < len;
    Rank {
        base: if starred { star + 1 } else { len },
        starred,
        len,
    }
}

// The longer base comes first, then a pattern, then the longer key. The empty key comes behind every other. For ranks that no key has, the order
// is free.
#[tactic(auto, using(crate::proofs::Keys::plain_first, crate::proofs::Keys::plain_second, crate::proofs::Keys::by_size, crate::proofs::Keys::by_base))]
pub fn compare(a: Rank, b: Rank) -> Ordering
    ensures { (k l : List ℕ) → a ≡ rank_of k → b ≡ rank_of l → order_of result ≡ PATTERN_KEY_COMPARE k l }
{
    match b.base.cmp(&a.base) {
        Ordering::Equal if !a.starred => Ordering::Greater,
        Ordering::Equal if !b.starred => Ordering::Less,
        Ordering::Equal => b.len.cmp(&a.len),
        by_base => by_base,
    }
}

pub fn pattern_key_compare(a: &[u8], b: &[u8]) -> Ordering
    ensures { order_of result ≡ PATTERN_KEY_COMPARE a.now b.now }
{
    compare(rank_of(a), rank_of(b))
}

// A part of a text, by its place.
#[derive(Clone, Copy, Debug, Default, PartialEq, Eq)]
pub struct Span {
    pub start: usize,
    pub len: usize,
}

impl Span {
    // The part itself, as far as the text reaches.
    pub fn of(self, s: &[u8]) -> &[u8]
        ensures { result.now ≡ take self.len (drop self.start s.now) }
    {
        text::part(s, self.start, self.len)
    }
}

#[tactic(auto, unfolding(definition::specs::Exports::is_subpath_key))]
pub fn is_subpath_key(key: &[u8]) -> bool
    ensures { result ≡ is_subpath_key key.now }
{
    text::starts_with(key, b"./") || text::starts_with(key, b"#")
}

// Whether the match key has room for the whole key and ends with the trailer; an empty trailer asks nothing.
#[tactic(auto, unfolding(definition::specs::Text::equal))]
fn trailer_fits(match_key: &[u8], key: &[u8], trailer: &[u8]) -> bool
    ensures { result ≡ (equal trailer.now [] || (leb (length key.now) (length match_key.now) && ends_with trailer.now match_key.now)) }
{
    trailer.is_empty() || (key.len() <= match_key.len() && text::ends_with(match_key, trailer))
}

// A pattern key, by what stands before and behind its first star.
#[tactic(auto, unfolding(definition::specs::Exports::star_match))]
fn star_match(match_key: &[u8], key: &[u8], base: &[u8], trailer: &[u8]) -> Option<Span>
    requires { length key.now ≡ suc (length base.now + length trailer.now) }
    ensures { match_of match_key.now result ≡ star_match match_key.now key.now base.now trailer.now }
{
    if text::starts_with(match_key, base)
        && !text::contains(trailer, b'*')
        && trailer_fits(match_key, key, trailer)
    {
        Some(Span {
            start: base.len(),
            len: match_key.len() - base.len() - trailer.len(),
        })
    } else {
        None
    }
}

// A folder key, by what stands behind it.
#[tactic(auto, using(std::proofs::lemmas::List::take_rest, laws::specs::TextLaws::starts_with_length))]
fn folder_match(match_key: &[u8], key: &[u8]) -> Option<Span>
    ensures { match_of match_key.now result ≡ (if ends_with (text "/") key.now && starts_with key.now match_key.now then some (drop (length key.now) match_key.now) else none) }
{
    if text::ends_with(key, b"/") && text::starts_with(match_key, key) {
        Some(Span {
            start: key.len(),
            len: match_key.len() - key.len(),
        })
    } else {
        None
    }
}

// The part of the match key that a pattern key, or a folder key, leaves over.
#[tactic(auto, unfolding(definition::specs::Exports::pattern_match))]
pub fn pattern_match(match_key: &[u8], key: &[u8]) -> Option<Span>
    ensures { match_of match_key.now result ≡ pattern_match match_key.now key.now }
{
    if !is_subpath_key(key) {
        return None;
    }
    let star = text::find(key, b'*', 0);
    if star < key.len() {
        star_match(match_key, key, &key[..star], &key[star + 1..])
    } else {
        folder_match(match_key, key)
    }
}

// A part of a string of the manifest: the string's place, and where the part stands in its decoded text. One of length 0 is none.
#[derive(Clone, Copy, Debug, Default, PartialEq, Eq)]
pub struct Part {
    pub at: usize,
    pub span: Span,
}

impl Part {
    #[tactic(auto, using(crate::proofs::Contexts::left_old, crate::proofs::Contexts::replaced))]
    fn or(self, old: Part) -> Part
        ensures { (m : List ℕ) → Inside m self → part_text m result ≡ or_old (part_text m self) (part_text m old) }
    {
        if self.span.len == 0 { old } else { self }
    }

    // Its text; that of a string with an escape is decoded into work.
    pub fn text<'a>(self, manifest: &'a [u8], work: &'a mut [u8; 1024]) -> &'a [u8]
        ensures { result.now ≡ part_text manifest.now self }
    {
        if self.span.len == 0 {
            return b"";
        }
        let text = json_text::read_text(manifest, self.at, work);
        self.span.of(json_text::text_at(manifest, work, text))
    }
}

// Puts the text of a part at the start of w, as far as there is room. The answer is the text's length.
pub fn part_text(m: &[u8], p: Part, w: &mut [u8]) -> usize
    ensures value { result ≡ length (part_text m.now p) }
    ensures w_after { w.new ≡ overwrite 0 (part_text m.now p) w.old }
{
    let mut decoded = [0u8; 1024];
    let part = p.text(m, &mut decoded);
    text::copy_at(w, 0, part);
    part.len()
}

// context.rs: the query and the fragment so far, each a part of the target it came from.
#[derive(Clone, Copy, Debug, Default, PartialEq, Eq)]
pub struct Context {
    pub query: Part,
    pub fragment: Part,
}

impl Context {
    pub fn new() -> Context
        ensures { (m : List ℕ) → context_of m result ≡ record { query = []; fragment = [] } }
    {
        Context::default()
    }

    // A new one replaces the old, and a missing one leaves it.
    #[tactic(auto, unfolding(definition::specs::Exports::with_query_fragment))]
    pub fn with_query_fragment(self, query: Part, fragment: Part) -> Context
        ensures { (m : List ℕ) → Inside m query → Inside m fragment → context_of m result ≡ with_query_fragment (context_of m self) (part_text m query) (part_text m fragment) }
    {
        Context {
            query: query.or(self.query),
            fragment: fragment.or(self.fragment),
        }
    }
}

// How the resolution of a target ended.
#[derive(Clone, Copy, Debug, PartialEq, Eq)]
pub enum Outcome {
    Found,
    Nothing,
    Empty,
    InvalidTarget,
    // an empty array: the match, or ".", is not exported
    NotExportedMatch,
    NotExported,
    ConfigMixed,
    ConfigDirectory,
    OverLong,
}

// The path, or the target, is in a lent path.
#[derive(Clone, Copy, Debug, PartialEq, Eq)]
pub struct Answer {
    pub context: Context,
    pub outcome: Outcome,
}

impl Answer {
    pub fn new(context: Context, outcome: Outcome) -> Answer
        ensures { result ≡ record { context = context; outcome = outcome } }
    {
        Answer { context, outcome }
    }
}

// The key that leads to a target: without a pattern match, with a star, or a folder.
#[derive(Clone, Copy, Debug, PartialEq, Eq)]
pub enum Form {
    Plain,
    Starred,
    Folder,
}

// What the targets of a key are asked for: the package's directory, the form of the key, and its pattern match.
#[derive(Clone, Copy)]
pub struct Wanted<'a> {
    pub url: &'a [u8],
    pub form: Form,
    pub pattern: &'a [u8],
}

impl<'a> Wanted<'a> {
    // For a key without a pattern match.
    pub fn plain(url: &'a [u8]) -> Wanted<'a>
        ensures { (result.url.now ≡ url.now) × (result.form ≡ Form.Plain) }
    {
        Wanted {
            url,
            form: Form::Plain,
            pattern: &[],
        }
    }
}

// A target, with the match put in, below the package's directory.
fn target_path(url: &[u8], t: &[u8], path: &mut PathBuf) -> Outcome
    ensures result_after { (q : Request) → q.package_url ≡ url.now → outcome_at q path.new result ≡ target_path q (target t.now) }
    ensures texted { Texted path.new result }
{
    if t.len() > 2048 {
        return Outcome::OverLong;
    }
    if path::is_invalid_exports_target(t) {
        path::set(path, t);
        return Outcome::InvalidTarget;
    }
    path::set_normalized(path, url, t);
    match path.as_slice() {
        Some(_) => Outcome::Found,
        None => Outcome::OverLong,
    }
}

// The same for a target that was built.
fn built_target(url: &[u8], built: &PathBuf, path: &mut PathBuf) -> Outcome
    ensures result_after { (q : Request) (t : List ℕ) → q.package_url ≡ url.now → path_of built.now ≡ limited t → outcome_at q path.new result ≡ target_path q (target t) }
    ensures texted { Texted path.new result }
{
    match built.as_slice() {
        Some(t) => target_path(url, t, path),
        None => Outcome::OverLong,
    }
}

// The target with every star replaced by the pattern match.
#[tactic(auto, unfolding(definition::specs::Path::add_extension))]
fn substitute(t: &[u8], pattern: &[u8]) -> PathBuf
    ensures { path_of result ≡ limited (replace star pattern.now t.now) }
{
    PathBuf::new().append_replaced(t, pattern)
}

// `normalize_string_target`, and what it gives.
fn normalized_target(wanted: Wanted<'_>, t: &[u8], path: &mut PathBuf) -> Outcome
    ensures result_after { (q : Request) → Asked q wanted.entry → outcome_at q path.new result ≡ target_path q (normalize_string_target q.key t.now q.matched) }
    ensures texted { Texted path.new result }
{
    let Wanted { url, form, pattern } = wanted;
    match form {
        Form::Plain => target_path(url, t, path),
        Form::Starred => built_target(url, &substitute(t, pattern), path),
        Form::Folder if text::contains(t, b'*') => {
            built_target(url, &substitute(t, pattern), path)
        }
        Form::Folder if text::ends_with(t, b"/") => {
            built_target(url, &path::add_extension(t, pattern), path)
        }
        Form::Folder => Outcome::ConfigDirectory,
    }
}

// The path of a target, which has at most 2,048 bytes.
fn parsed_target(wanted: Wanted<'_>, t: &[u8], path: &mut PathBuf) -> Outcome
    ensures result_after { (q : Request) → Asked q wanted.entry → length t.now ≤ 2048 → outcome_at q path.new result ≡ path_target q t.now }
    ensures texted { length t.now ≤ 2048 → Texted path.new result }
{
    if text::starts_with(t, b"./") {
        normalized_target(wanted, t, path)
    } else {
        path::set(path, t);
        Outcome::InvalidTarget
    }
}

// The same for the path of a specifier, unescaped where something in it is escaped.
fn specifier_target(wanted: Wanted<'_>, target: Path<'_>, path: &mut PathBuf) -> Outcome
    ensures result_after { (q : Request) → Asked q wanted.entry → length (path_text target.entry) ≤ 2048 → outcome_at q path.new result ≡ path_target q (path_text target.entry) }
    ensures texted { length (written target.entry) ≤ 2048 → Texted path.new result }
{
    match target {
        Path::Plain(t) => parsed_target(wanted, t, path),
        Path::Escaped(t) => match specifier::unescaped(t).as_slice() {
            Some(unescaped) => parsed_target(wanted, unescaped, path),
            None => Outcome::OverLong,
        },
    }
}

// The query and the fragment of a string at a place, put in place of the old ones.
fn parsed_context(c: Context, s: &[u8], at: usize, parsed: Specifier<'_>) -> Context
    requires { written parsed.path ++ parsed.query.now ++ parsed.fragment.now ≡ s.now }
    ensures { (m : List ℕ) → string_at m at ≡ s.now → context_of m result ≡ with_query_fragment (context_of m c) parsed.entry.query.now parsed.entry.fragment.now }
{
    let Specifier {
        query,
        fragment,
        ..
    } = parsed;
    let end = s.len() - fragment.len();
    let query = Span {
        start: end - query.len(),
        len: query.len(),
    };
    let fragment = Span {
        start: end,
        len: fragment.len(),
    };
    c.with_query_fragment(Part { at, span: query }, Part { at, span: fragment })
}

// The text of the string at a place as a target, which has at most 1,024 bytes; for a longer text, or one that is not that string's, the answer is
// free. Where the outcome has a text, the lent path is not over-long, for up to 2,048 bytes of any text.
pub fn text_target(
    wanted: Wanted<'_>,
    s: &[u8],
    at: usize,
    c: Context,
    path: &mut PathBuf,
) -> Answer
    ensures result_after { (m : List ℕ) (q : Request) → Asked q wanted.entry → length s.now ≤ 1024 → string_at m at ≡ s.now → answer_of m q path.new result ≡ string_target q (parse_specifier s.now) s.now (context_of m c) }
    ensures texted { length s.now ≤ 2048 → Texted path.new result.outcome }
{
    let Ok(parsed) = Specifier::parse(s) else {
        path::set(path, s);
        return Answer::new(c, Outcome::Empty);
    };
    let context = parsed_context(c, s, at, parsed);
    Answer::new(context, specifier_target(wanted, parsed.path, path))
}
