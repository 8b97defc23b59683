// PACKAGE_TARGET_RESOLVE of the Node.js documents, as lib.rs has it: the target at a place of a manifest, through the condition objects and the
// arrays that hold it.

#![tactic(auto)]

ghost use Rattle.std.specs.Prelude.{◌≡◌, List, ℕ, suc, ◌≤◌, ◌<◌, length, drop, IfSome};
ghost use Rattle.std.specs.List.{position};
ghost use Rattle.definition.specs.Settings.{texts_of};
ghost use Rattle.definition.specs.Json.{Json, str, arr, obj, Members, got, quoted};
ghost use Rattle.definition.specs.JsonAt.{name_is};
ghost use Rattle.definition.specs.Exports.{Request, string_target, PACKAGE_TARGET_RESOLVE};
ghost use Rattle.definition.specs.Specifier.{parse_specifier};
ghost use Rattle.settings.specs.Meaning.{texts_left};
ghost use Rattle.targets.specs.Contexts.{context_of};
ghost use Rattle.targets.specs.Answers.{answer_of, Asked, Texted};
ghost use Rattle.package_target.specs.Places.{Written, Stands, kind_of};
ghost use Rattle.package_target.specs.Conditions.{condition_of, IsCondition, places, LastValues, Turn};
ghost use Rattle.package_target.specs.Answers.{Requested, SameBuffers, is_nothing, ends_array};

use package_json::Kind;
use path::PathBuf;
use settings::TextsLeft;
use targets::{Answer, Context, Outcome, Wanted};

// As many conditions as a count of one byte and "default" can name.
const CONDITIONS: usize = 256;

// The kind of the value at a place. Where none stands there, the answer is free.
pub fn kind_at(m: &[u8], at: usize) -> Kind
    ensures { (d : ℕ) (j : Json) → Stands m.now d at j → result ≡ kind_of j }
{
    package_json::kind_at(m, at).unwrap_or(Kind::Scalar)
}

// The conditions of the settings.
#[derive(Clone, Copy)]
struct ConditionList<'a> {
    texts: TextsLeft<'a>,
    ghost few: { length (texts_left texts) < 256 },
}

impl<'a> ConditionList<'a> {
    fn of(settings: &'a [u8]) -> ConditionList<'a>
        ensures { texts_left result.texts ≡ texts_of settings.now 0 }
    {
        ConditionList {
            texts: settings::texts(settings, settings::Kind::Conditions),
        }
    }

    // Which condition of the settings the member at a place names.
    fn setting_at(&self, m: &[u8], at: usize) -> Option<usize>
        ensures { result ≡ position (λ condition. name_is condition (drop at m.now)) (texts_left self.now.texts) }
    {
        let mut texts = self.texts;
        texts.position(|condition| package_json::name_is(m, at, condition))
    }

    // Which condition the member at a place names: 0 is "default", 1 + i the i-th of the settings. It stays out of the functions that call
    // themselves, so that the room for a name with an escape is on the stack once.
    #[inline(never)]
    fn condition_at(&self, m: &[u8], at: usize) -> Option<usize>
        ensures by_index { (k s : List ℕ) → quoted (drop at m.now) ≡ got k s → IsCondition (condition_of (texts_left self.now.texts) k) result }
        ensures small { IfSome result (λ k. k < 256) }
    {
        if package_json::name_is(m, at, b"default") {
            return Some(0);
        }
        Some(1 + self.setting_at(m, at)?)
    }

    // Puts the last value of each condition that the object at a place names, by its place, and leaves the others as they were. Compiled by itself,
    // so that a level has no more on the stack than its table.
    #[inline(never)]
    fn put_last_values(&self, m: &[u8], at: usize, values: &mut [usize; CONDITIONS])
        ensures { (d : ℕ) (ms : Members) → Written m.now (suc d) at (obj ms) → LastValues m.now d (texts_left self.now.texts) (places (length m.now) values.old) (places (length m.now) values.new) ms }
    {
        for member in package_json::members(m, at) {
            if let Some(k) = self.condition_at(m, member.name) {
                values[k] = member.value.unwrap_or(m.len());
            }
        }
    }

    // The value that the member at a place leads to, if it leads to one: each condition has one turn.
    fn take_turn(&self, m: &[u8], at: usize, values: &mut [usize; CONDITIONS]) -> Option<usize>
        ensures { (k s : List ℕ) → quoted (drop at m.now) ≡ got k s → Turn (condition_of (texts_left self.now.texts) k) (places (length m.now) values.old) (places (length m.now) values.new) result }
    {
        let k = self.condition_at(m, at)?;
        let place = values[k];
        values[k] = m.len();
        (place < m.len()).then_some(place)
    }
}

// Nothing was found: the next condition, or the next part of the algorithm, is tried.
pub fn is_nothing(o: Outcome) -> bool
    ensures { result ≡ is_nothing o }
{
    matches!(o, Outcome::Nothing)
}

// Whether an element ends its array: a path or a refusal does. Nothing does not, and neither does a failure.
fn ends_array(o: Outcome) -> bool
    ensures { result ≡ ends_array o }
{
    matches!(o, Outcome::Found | Outcome::OverLong)
}

// The lent buffers: for the decoded text of a string, and for the path of an answer.
#[derive(Drop)]
pub struct Buffers<'a> {
    pub work: &'a mut [u8; 1024],
    pub path: &'a mut PathBuf,
}

// What the resolution of one target does not change: the manifest, the settings, and what its targets are asked for.
#[derive(Clone, Copy)]
pub struct Resolution<'a> {
    pub manifest: &'a [u8],
    pub settings: &'a [u8],
    pub wanted: Wanted<'a>,
}

impl Resolution<'_> {
    // The string at a place as a target, decoded into work where it has an escape. It stays out of the functions that call themselves, so that
    // the paths that it builds are on the stack once.
    #[inline(never)]
    fn string_target(&self, at: usize, c: Context, buffers: &mut Buffers<'_>) -> Answer
        ensures result_after { (q : Request) (d : ℕ) (s : List ℕ) → Asked q self.now.wanted → Stands self.now.manifest.now d at (str s) → answer_of self.now.manifest.now q buffers.new.path.now result ≡ string_target q (parse_specifier s) s (context_of self.now.manifest.now c) }
        ensures texted { Texted buffers.new.path.now result.outcome }
        ensures same { SameBuffers buffers.old buffers.new }
    {
        let path = &mut *buffers.path;
        let work = &mut *buffers.work;
        let text = package_json::string_at(self.manifest, at, work);
        targets::text_target(self.wanted, text, at, c, path)
    }

    // The answer of the first element that gives a path or a refusal, and else that of the last; an empty array exports nothing. The context goes
    // on from one to the next.
    #[cycle(target)]
    fn array(&self, at: usize, depth: usize, c: Context, buffers: &mut Buffers<'_>) -> Answer
        ensures result_after { (q : Request) (j : Json) → Requested q self.now → Stands self.now.manifest.now depth at j → Kind.Array ≡ kind_of j → answer_of self.now.manifest.now q buffers.new.path.now result ≡ PACKAGE_TARGET_RESOLVE q j (context_of self.now.manifest.now c) }
        ensures texted { Texted buffers.new.path.now result.outcome }
        ensures same { SameBuffers buffers.old buffers.new }
    {
        if depth == 0 {
            return Answer::new(c, Outcome::Nothing);
        }
        let mut answer = Answer::new(c, Outcome::NotExportedMatch);
        for element in package_json::elements(self.manifest, at) {
            answer = self.target(element, depth - 1, answer.context, buffers);
            if ends_array(answer.outcome) {
                return answer;
            }
        }
        answer
    }

    // The last value of the first condition that gives an answer. The context goes on from one to the next.
    #[cycle(target)]
    fn object(&self, at: usize, depth: usize, c: Context, buffers: &mut Buffers<'_>) -> Answer
        ensures result_after { (q : Request) (j : Json) → Requested q self.now → Stands self.now.manifest.now depth at j → Kind.Object ≡ kind_of j → answer_of self.now.manifest.now q buffers.new.path.now result ≡ PACKAGE_TARGET_RESOLVE q j (context_of self.now.manifest.now c) }
        ensures texted { Texted buffers.new.path.now result.outcome }
        ensures same { SameBuffers buffers.old buffers.new }
    {
        if depth == 0 {
            return Answer::new(c, Outcome::Nothing);
        }
        let conditions = ConditionList::of(self.settings);
        // The place of a condition that has no value left is the manifest's end: options would take twice the stack, of which each of up to 16
        // levels has such a table.
        let mut values = [self.manifest.len(); CONDITIONS];
        conditions.put_last_values(self.manifest, at, &mut values);
        let mut answer = Answer::new(c, Outcome::Nothing);
        for member in package_json::members(self.manifest, at) {
            if let Some(value) = conditions.take_turn(self.manifest, member.name, &mut values) {
                answer = self.target(value, depth - 1, answer.context, buffers);
                if !is_nothing(answer.outcome) {
                    return answer;
                }
            }
        }
        answer
    }

    // The target at a place, in which `depth` more brackets may be open.
    #[cycle(target)]
    fn target(&self, at: usize, depth: usize, c: Context, buffers: &mut Buffers<'_>) -> Answer
        ensures result_after { (q : Request) (j : Json) → Requested q self.now → Stands self.now.manifest.now depth at j → answer_of self.now.manifest.now q buffers.new.path.now result ≡ PACKAGE_TARGET_RESOLVE q j (context_of self.now.manifest.now c) }
        ensures texted { Texted buffers.new.path.now result.outcome }
        ensures same { SameBuffers buffers.old buffers.new }
    {
        match kind_at(self.manifest, at) {
            Kind::Scalar => Answer::new(c, Outcome::Nothing),
            Kind::String => self.string_target(at, c, buffers),
            Kind::Array => self.array(at, depth, c, buffers),
            Kind::Object => self.object(at, depth, c, buffers),
        }
    }
}

// The target at a place, in which `depth` more brackets may be open. The answer's path, or the target that a failure names, is in the lent path;
// work ends with its old length and any bytes. Where no value stands there, or work has fewer than 1,024 bytes, the answer is free. In any case, where
// the outcome has a text, the lent path is not over-long.
pub fn package_target_resolve(
    resolution: Resolution<'_>,
    at: usize,
    depth: usize,
    c: Context,
    work: &mut [u8],
    path: &mut PathBuf,
) -> Answer
    ensures result_after { (q : Request) (j : Json) → 1024 ≤ length work.old → Requested q resolution.entry → Stands resolution.entry.manifest.now depth at j → answer_of resolution.entry.manifest.now q path.new result ≡ PACKAGE_TARGET_RESOLVE q j (context_of resolution.entry.manifest.now c) }
    ensures texted { Texted path.new result.outcome }
    ensures work_len_unchanged { length work.new ≡ length work.old }
{
    let Some(work) = work.first_chunk_mut() else {
        return Answer::new(c, Outcome::Nothing);
    };
    resolution.target(at, depth, c, &mut Buffers { work, path })
}
