// PACKAGE_EXPORTS_RESOLVE and PACKAGE_IMPORTS_EXPORTS_RESOLVE of the Node.js documents, as lib.rs has them: the keys of an exports map, and the one
// whose target is resolved.

#![tactic(auto)]

ghost use Rattle.std.specs.Prelude.{◌≡◌, List, ℕ, ◌≤◌, ◌<◌, length, drop, ◌&&◌, ◌||◌, if◌then◌else◌};
ghost use Rattle.definition.specs.Text.{text, equal};
ghost use Rattle.definition.specs.Settings.{texts_of, settings_of};
ghost use Rattle.std.proofs.Math.Option.{Option, none};
ghost use Rattle.definition.specs.Json.{Json, obj, Members, got, quoted};
ghost use Rattle.package_json.specs.Values as values;
ghost use Rattle.definition.specs.Exports as exports;
ghost use Rattle.definition.specs.Exports.{is_subpath_key, is_dot_key, any_key, Entry, entries, get, Request, better as betterOf, best as bestOf, literal, as_selected, select as selectOf, or_go_on, main_export, main_resolve, PACKAGE_TARGET_RESOLVE, PACKAGE_IMPORTS_EXPORTS_RESOLVE, PACKAGE_EXPORTS_RESOLVE};
ghost use Rattle.targets.specs.Contexts.{string_at, context_of};
ghost use Rattle.targets.specs.Answers.{answer_of, Asked, Texted};
ghost use Rattle.package_target.specs.Places.{Stands};
ghost use Rattle.package_target.specs.Answers.{SameBuffers};
ghost use Rattle.exports.specs.Chosen.{Finds, a_key, joined_keys, keys_of, BestOf, form_of, part_of, Selects, resolved_of, fresh, dot_request, went_on, EndTexted, not_exported, IsWhole};

use package_json::Kind;
use package_target::{Buffers, Resolution};
use path::PathBuf;
use std::ops::ControlFlow;
use targets::{Answer, Context, Form, Outcome, Rank, Span, Wanted};

#[tactic(auto, unfolding(definition::specs::Exports::is_dot_key))]
fn is_dot_key(key: &[u8]) -> bool
    ensures { result ≡ is_dot_key key.now }
{
    text::starts_with(key, b".") || text::starts_with(key, b"#")
}

// What the keys of an object begin with.
#[derive(Clone, Copy, Default)]
struct KeyMarks {
    // some key begins with "." or "#"
    dot: bool,
    // some key does not
    other: bool,
    // some key begins with "./" or "#"
    subpath: bool,
}

impl KeyMarks {
    fn of(key: &[u8]) -> KeyMarks
        ensures { result ≡ a_key key.now }
    {
        let dot = is_dot_key(key);
        KeyMarks {
            dot,
            other: !dot,
            subpath: targets::is_subpath_key(key),
        }
    }

    fn or(self, other: KeyMarks) -> KeyMarks
        ensures { result ≡ joined_keys self other }
    {
        KeyMarks {
            dot: self.dot || other.dot,
            other: self.other || other.other,
            subpath: self.subpath || other.subpath,
        }
    }

    fn are_mixed(self) -> bool
        ensures { result ≡ (self.dot && self.other) }
    {
        self.dot && self.other
    }
}

// The pattern key that comes first of those that match: its place, and the part of the match key that is left over.
#[derive(Clone, Copy)]
struct Best {
    key: usize,
    rank: Rank,
    matched: Span,
}

// The key that a failure names.
#[derive(Clone, Copy, Debug, PartialEq, Eq)]
pub enum Key {
    Dot,
    Subpath,
    // a key of the manifest, by its place
    At(usize),
}

fn form_of(starred: bool) -> Form
    ensures { result ≡ form_of starred }
{
    if starred { Form::Starred } else { Form::Folder }
}

// The member of a map that applies to a match key, the literal key's being Key::Subpath: the place of its last value,
// and the part of the match key that a pattern key leaves over, with the form in which a target takes it.
#[derive(Clone, Copy, Debug, PartialEq, Eq)]
pub struct Member {
    pub key: Key,
    pub value: usize,
    pub matched: Option<Span>,
    pub form: Form,
}

// The part of a match key that matched; all of it for a literal key, whose targets take none.
pub fn matched_part(match_key: &[u8], matched: Option<Span>) -> &[u8]
    ensures { result.now ≡ part_of match_key.now matched }
{
    match matched {
        Some(part) => part.of(match_key),
        None => match_key,
    }
}

// An exports or an imports map: an object of a manifest, by its place.
#[derive(Clone, Copy)]
struct Map<'a> {
    manifest: &'a [u8],
    at: usize,
}

impl<'a> Map<'a> {
    // The key at a place.
    fn key<'k>(self, at: usize, work: &'k mut [u8; 1024]) -> &'k [u8]
    where
        'a: 'k,
        ensures { result.now ≡ string_at self.entry.manifest.now at }
    {
        package_json::string_at(self.manifest, at, work)
    }

    // What its keys begin with.
    fn keys(self, work: &mut [u8; 1024]) -> KeyMarks
        ensures { (ms : Members) → Stands self.entry.manifest.now 15 self.entry.at (obj ms) → result ≡ keys_of (entries ms) }
    {
        let mut keys = KeyMarks::default();
        for member in package_json::members(self.manifest, self.at) {
            keys = keys.or(KeyMarks::of(self.key(member.name, work)));
        }
        keys
    }

    // The key at a place, where it matches and comes before the best so far.
    fn better(
        self,
        key: usize,
        match_key: &[u8],
        best: Option<Best>,
        work: &mut [u8; 1024],
    ) -> Option<Best>
        ensures { (o : Option Entry) (k s : List ℕ) (j : Json) → quoted (drop key self.entry.manifest.now) ≡ got k s → BestOf self.entry.manifest.now match_key.now best o → BestOf self.entry.manifest.now match_key.now result (betterOf match_key.now o (record { key = k; target = j })) }
    {
        let name = self.key(key, work);
        let Some(matched) = targets::pattern_match(match_key, name) else {
            return best;
        };
        let rank = targets::rank_of(name);
        match best {
            None => Some(Best { key, rank, matched }),
            Some(old) if targets::compare(old.rank, rank).is_gt() => Some(Best {
                key,
                rank,
                matched,
            }),
            Some(_) => best,
        }
    }

    fn best(self, match_key: &[u8], work: &mut [u8; 1024]) -> Option<Best>
        ensures { (ms : Members) → Stands self.entry.manifest.now 15 self.entry.at (obj ms) → BestOf self.entry.manifest.now match_key.now result (bestOf match_key.now none (entries ms)) }
    {
        let mut best = None;
        for member in package_json::members(self.manifest, self.at) {
            best = self.better(member.name, match_key, best, work);
        }
        best
    }

    // The value of the key at a place: that of its last member.
    fn value_of(self, key: usize, work: &mut [u8; 1024]) -> Option<usize>
        ensures { (ms : Members) (k s : List ℕ) → Stands self.entry.manifest.now 15 self.entry.at (obj ms) → quoted (drop key self.entry.manifest.now) ≡ got k s → Finds self.entry.manifest.now 14 (get k (entries ms)) result }
    {
        package_json::get(self.manifest, self.at, self.key(key, work))
    }

    // The value of the literal key: a match key with a star is none.
    fn literal(self, match_key: &[u8]) -> Option<usize>
        ensures { (ms : Members) → Stands self.entry.manifest.now 15 self.entry.at (obj ms) → Finds self.entry.manifest.now 14 (literal match_key.now (entries ms)) result }
    {
        if text::contains(match_key, b'*') {
            return None;
        }
        package_json::get(self.manifest, self.at, match_key)
    }

    // The best pattern key's member.
    fn pattern(self, match_key: &[u8], work: &mut [u8; 1024]) -> Option<Member>
        ensures { (ms : Members) → Stands self.entry.manifest.now 15 self.entry.at (obj ms) → Selects self.entry.manifest.now match_key.now result (as_selected match_key.now (bestOf match_key.now none (entries ms))) }
    {
        let best = self.best(match_key, work)?;
        let value = self.value_of(best.key, work)?;
        Some(Member {
            key: Key::At(best.key),
            value,
            matched: Some(best.matched),
            form: form_of(best.rank.starred),
        })
    }

    // The member that applies to a match key.
    fn select(self, match_key: &[u8], work: &mut [u8; 1024]) -> Option<Member>
        ensures { (ms : Members) → Stands self.entry.manifest.now 15 self.entry.at (obj ms) → Selects self.entry.manifest.now match_key.now result (selectOf match_key.now (entries ms)) }
    {
        if text::ends_with(match_key, b"/") {
            return None;
        }
        match self.literal(match_key) {
            Some(value) => Some(Member {
                key: Key::Subpath,
                value,
                matched: None,
                form: Form::Plain,
            }),
            None => self.pattern(match_key, work),
        }
    }
}

// The member that applies to a match key in the object at a place of the manifest m, an exports or an imports map. Where
// work has fewer than 1,024 bytes there is none; where no object stands there, the answer is free. Work ends with any
// other bytes.
pub fn select(m: &[u8], at: usize, match_key: &[u8], work: &mut [u8]) -> Option<Member>
    ensures selects { (ms : Members) → 1024 ≤ length work.old → Stands m.now 15 at (obj ms) → Selects m.now match_key.now result (selectOf match_key.now (entries ms)) }
    ensures value { length work.old < 1024 → result ≡ None }
    ensures work_len_unchanged { length work.new ≡ length work.old }
{
    Map { manifest: m, at }.select(match_key, work.first_chunk_mut()?)
}

// How an exports field was resolved: an answer, with the key that led to the target and the part of the subpath that matched.
#[derive(Clone, Copy, Debug, PartialEq, Eq)]
pub struct Resolved {
    pub answer: Answer,
    pub key: Key,
    pub matched: Option<Span>,
}

// An end that speaks of the subpath.
fn unresolved(c: Context, outcome: Outcome) -> Resolved
    ensures { (result.answer.context ≡ c) × (result.answer.outcome ≡ outcome) × (result.key ≡ Key.Subpath) }
{
    Resolved {
        answer: Answer::new(c, outcome),
        key: Key::Subpath,
        matched: None,
    }
}

// A part of the algorithm: it ends with an answer, or goes on where it found nothing.
fn unless_nothing(r: Resolved) -> ControlFlow<Resolved, Context>
    ensures value { (m url subpath : List ℕ) (path : PathBuf) (go : exports.Context → exports.Resolved) → went_on m url subpath path result go ≡ or_go_on (resolved_of m url subpath path r) go }
    ensures texted { (path : PathBuf) → Texted path r.answer.outcome → EndTexted path result }
{
    if package_target::is_nothing(r.answer.outcome) {
        ControlFlow::Continue(r.answer.context)
    } else {
        ControlFlow::Break(r)
    }
}

// An exports field: the place of its value in a manifest, with the settings and the package's directory.
#[derive(Clone, Copy)]
pub struct Field<'a> {
    pub manifest: &'a [u8],
    pub at: usize,
    pub settings: &'a [u8],
    pub url: &'a [u8],
}

impl<'a> Field<'a> {
    // The target at a place.
    fn target(
        self,
        wanted: Wanted<'a>,
        at: usize,
        depth: usize,
        c: Context,
        buffers: &mut Buffers<'_>,
    ) -> Answer
        ensures result_after { (q : Request) (j : Json) → Asked q wanted.entry → q.conditions ≡ texts_of self.entry.settings.now 0 → Stands self.entry.manifest.now depth at j → answer_of self.entry.manifest.now q buffers.new.path.now result ≡ PACKAGE_TARGET_RESOLVE q j (context_of self.entry.manifest.now c) }
        ensures texted { Texted buffers.new.path.now result.outcome }
        ensures same { SameBuffers buffers.old buffers.new }
    {
        let resolution = Resolution {
            manifest: self.manifest,
            settings: self.settings,
            wanted,
        };
        let path = &mut *buffers.path;
        let work = &mut *buffers.work;
        package_target::package_target_resolve(resolution, at, depth, c, work, path)
    }

    // PACKAGE_IMPORTS_EXPORTS_RESOLVE
    fn by_keys(self, match_key: &'a [u8], c: Context, buffers: &mut Buffers<'_>) -> Resolved
        ensures result_after { (ms : Members) → Stands self.entry.manifest.now 15 self.entry.at (obj ms) → resolved_of self.entry.manifest.now self.entry.url.now match_key.now buffers.new.path.now result ≡ PACKAGE_IMPORTS_EXPORTS_RESOLVE self.entry.url.now (texts_of self.entry.settings.now 0) match_key.now (entries ms) (context_of self.entry.manifest.now c) }
        ensures texted { Texted buffers.new.path.now result.answer.outcome }
        ensures same { SameBuffers buffers.old buffers.new }
    {
        let map = Map {
            manifest: self.manifest,
            at: self.at,
        };
        let Some(member) = map.select(match_key, buffers.work) else {
            return unresolved(c, Outcome::Nothing);
        };
        let wanted = Wanted {
            url: self.url,
            form: member.form,
            pattern: matched_part(match_key, member.matched),
        };
        Resolved {
            answer: self.target(wanted, member.value, 14, c, buffers),
            key: member.key,
            matched: member.matched,
        }
    }

    // The main export, which stands at a place.
    fn main_at(
        self,
        at: usize,
        depth: usize,
        buffers: &mut Buffers<'_>,
    ) -> ControlFlow<Resolved, Context>
        ensures result_after { (j : Json) (subpath : List ℕ) (go : exports.Context → exports.Resolved) → Stands self.entry.manifest.now depth at j → went_on self.entry.manifest.now self.entry.url.now subpath buffers.new.path.now result go ≡ or_go_on (PACKAGE_TARGET_RESOLVE (dot_request self.entry.url.now (texts_of self.entry.settings.now 0)) j fresh) go }
        ensures texted { EndTexted buffers.new.path.now result }
        ensures same { SameBuffers buffers.old buffers.new }
    {
        unless_nothing(Resolved {
            answer: self.target(Wanted::plain(self.url), at, depth, Context::new(), buffers),
            key: Key::Dot,
            matched: None,
        })
    }

    // The main export of an object, in which some key is a subpath's or none, for the subpath ".".
    fn main_of_object(
        self,
        subpath: &'a [u8],
        subpaths: bool,
        buffers: &mut Buffers<'_>,
    ) -> ControlFlow<Resolved, Context>
        ensures result_after { (ms : Members) (go : exports.Context → exports.Resolved) → Stands self.entry.manifest.now 15 self.entry.at (obj ms) → subpaths ≡ any_key is_subpath_key (entries ms) → went_on self.entry.manifest.now self.entry.url.now subpath.now buffers.new.path.now result go ≡ or_go_on (main_resolve self.entry.url.now (texts_of self.entry.settings.now 0) (if equal subpath.now (text ".") then main_export (obj ms) else none) fresh) go }
        ensures texted { EndTexted buffers.new.path.now result }
        ensures same { SameBuffers buffers.old buffers.new }
    {
        if !text::equal(subpath, b".") {
            return ControlFlow::Continue(Context::new());
        }
        match package_json::get(self.manifest, self.at, b".") {
            Some(dot) => self.main_at(dot, 14, buffers),
            None if subpaths => ControlFlow::Continue(Context::new()),
            None => self.main_at(self.at, 15, buffers),
        }
    }

    fn object(self, subpath: &'a [u8], buffers: &mut Buffers<'_>) -> ControlFlow<Resolved, Context>
        ensures result_after { (ms : Members) → Stands self.entry.manifest.now 15 self.entry.at (obj ms) → went_on self.entry.manifest.now self.entry.url.now subpath.now buffers.new.path.now result (not_exported self.entry.url.now subpath.now) ≡ PACKAGE_EXPORTS_RESOLVE self.entry.url.now (texts_of self.entry.settings.now 0) subpath.now (obj ms) fresh }
        ensures texted { EndTexted buffers.new.path.now result }
        ensures same { SameBuffers buffers.old buffers.new }
    {
        let map = Map {
            manifest: self.manifest,
            at: self.at,
        };
        let keys = map.keys(buffers.work);
        if keys.are_mixed() {
            return ControlFlow::Break(unresolved(Context::new(), Outcome::ConfigMixed));
        }
        let context = self.main_of_object(subpath, keys.subpath, buffers)?;
        unless_nothing(self.by_keys(subpath, context, buffers))
    }

    // A string or an array: the main export, and no other.
    fn whole(self, subpath: &'a [u8], buffers: &mut Buffers<'_>) -> ControlFlow<Resolved, Context>
        ensures result_after { (j : Json) → IsWhole j → Stands self.entry.manifest.now 15 self.entry.at j → went_on self.entry.manifest.now self.entry.url.now subpath.now buffers.new.path.now result (not_exported self.entry.url.now subpath.now) ≡ PACKAGE_EXPORTS_RESOLVE self.entry.url.now (texts_of self.entry.settings.now 0) subpath.now j fresh }
        ensures texted { EndTexted buffers.new.path.now result }
        ensures same { SameBuffers buffers.old buffers.new }
    {
        if !text::equal(subpath, b".") {
            return ControlFlow::Continue(Context::new());
        }
        self.main_at(self.at, 15, buffers)
    }

    // The field, unless nothing was found.
    fn found(self, subpath: &'a [u8], buffers: &mut Buffers<'_>) -> ControlFlow<Resolved, Context>
        ensures result_after { (j : Json) → Stands self.entry.manifest.now 15 self.entry.at j → went_on self.entry.manifest.now self.entry.url.now subpath.now buffers.new.path.now result (not_exported self.entry.url.now subpath.now) ≡ PACKAGE_EXPORTS_RESOLVE self.entry.url.now (texts_of self.entry.settings.now 0) subpath.now j fresh }
        ensures texted { EndTexted buffers.new.path.now result }
        ensures same { SameBuffers buffers.old buffers.new }
    {
        match package_target::kind_at(self.manifest, self.at) {
            Kind::Scalar => ControlFlow::Continue(Context::new()),
            Kind::String | Kind::Array => self.whole(subpath, buffers),
            Kind::Object => self.object(subpath, buffers),
        }
    }
}

// An exports field for a subpath. The answer's path, or the target that a failure names, is in the lent path; work ends with its old length and any
// bytes. Where no value stands at the field's place, or work has fewer than 1,024 bytes, the answer is free. In any case, where the outcome has a text,
// the lent path is not over-long.
pub fn package_exports_resolve<'a>(
    field: Field<'a>,
    subpath: &'a [u8],
    work: &mut [u8],
    path: &mut PathBuf,
) -> Resolved
    ensures result_after { (j : Json) → 1024 ≤ length work.old → values.Stands 15 (drop field.entry.at field.entry.manifest.now) j → resolved_of field.entry.manifest.now field.entry.url.now subpath.now path.new result ≡ PACKAGE_EXPORTS_RESOLVE field.entry.url.now (settings_of field.entry.settings.now).conditions subpath.now j fresh }
    ensures texted { Texted path.new result.answer.outcome }
    ensures work_len_unchanged { length work.new ≡ length work.old }
{
    let Some(work) = work.first_chunk_mut() else {
        return unresolved(Context::new(), Outcome::NotExported);
    };
    match field.found(subpath, &mut Buffers { work, path }) {
        ControlFlow::Break(resolved) => resolved,
        ControlFlow::Continue(context) => unresolved(context, Outcome::NotExported),
    }
}
