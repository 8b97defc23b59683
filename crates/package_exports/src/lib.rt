// LOAD_PACKAGE_EXPORTS and LOAD_PACKAGE_SELF of lib.rs, over a lent listing.

#![tactic(auto)]

ghost use Rattle.std.specs.Prelude.{◌≤◌, length, drop};
ghost use Rattle.definition.specs.Json.{Json};
ghost use Rattle.package_json.specs.Values.{Stands, Finds};
ghost use Rattle.definition.specs.Settings.{texts_of};
ghost use Rattle.definition.specs.Manifest.{first_field, manifest_view};
ghost use Rattle.definition.specs.Walk.{by_exports, LOAD_PACKAGE_EXPORTS, in_scope, LOAD_PACKAGE_SELF};
ghost use Rattle.package_json.specs.Cursors.{placed};
ghost use Rattle.consults.specs.Tape.{Done};
ghost use Rattle.consults.specs.Meaning.{settings_in, seen_in, tape_of, step_of, Same};
ghost use Rattle.directory.specs.Roots.{json_of};
ghost use Rattle.directory.specs.Refusals.{DoneUnless};
ghost use Rattle.package_exports.specs.Routines.{match_exports, room_for};

use consults::{Ending, Job, Tape};
use directory::Package;
use exports::Field;
use path::PathBuf;
use refusal::Refusal;
use settings::Kind;
use std::ops::ControlFlow;

// The first exports field of the settings that the manifest has.
fn exports_field(package: Package<'_>, s: &[u8]) -> Option<usize>
    ensures { Finds 15 (first_field (json_of «package».entry.manifest.now) (texts_of s.now 4)) (placed «package».entry.manifest.now result) }
{
    for name in settings::texts(s, Kind::ExportsFields) {
        if let Some(at) = package_json::get(package.manifest, package.root, name) {
            return Some(at);
        }
    }
    None
}

// PACKAGE_EXPORTS_RESOLVE for the exports field at a place, and RESOLVE_ESM_MATCH for the path that it gives.
fn resolve_exports(
    job: Job<'_>,
    spec: &[u8],
    subpath: &[u8],
    package: Package<'_>,
    at: usize,
    tape: &mut Tape<'_>,
    work: &mut [u8; 1024],
) -> ControlFlow<Ending>
    ensures same { Same tape.old tape.new }
    ensures done { (j : Json) → Stands 15 (drop at «package».entry.manifest.now) j → Done (seen_in job.entry) (match_exports (settings_in job.entry) spec.now «package».entry.dir.now subpath.now j) (tape_of tape.old) (tape_of tape.new) (step_of result) }
{
    let manifest = package.manifest;
    let dir = package.dir;
    let field = Field {
        manifest,
        at,
        settings: job.settings,
        url: dir,
    };
    let mut path = PathBuf::new();
    let resolved = exports::package_exports_resolve(field, subpath, work, &mut path);
    let target = path.as_slice().unwrap_or(&[]);
    exports_ending::exports_ending(manifest, dir, subpath, resolved, target, tape, work)?;
    let context = resolved.answer.context;
    esm_match::resolve_in_context(job, spec, target, manifest, context, tape, work)
}

// LOAD_PACKAGE_EXPORTS, 4. to 6.: without an exports field it comes back.
fn by_exports(
    job: Job<'_>,
    spec: &[u8],
    sub: &[u8],
    package: Package<'_>,
    tape: &mut Tape<'_>,
    work: &mut [u8; 1024],
) -> ControlFlow<Ending>
    requires { length sub.now ≤ 512 }
    ensures same { Same tape.old tape.new }
    ensures done { Done (seen_in job.entry) (by_exports (settings_in job.entry) spec.now «package».entry.dir.now sub.now (manifest_view (settings_in job.entry) (json_of «package».entry.manifest.now))) (tape_of tape.old) (tape_of tape.new) (step_of result) }
{
    let Some(at) = exports_field(package, job.settings) else {
        return ControlFlow::Continue(());
    };
    let dotted = package_name::dotted(sub);
    let subpath = consults::or_refuse(dotted.as_slice(), Refusal::PathTooLong)?;
    resolve_exports(job, spec, subpath, package, at, tape, work)
}

// LOAD_PACKAGE_EXPORTS(X, DIR): a directory with no manifest of its own has no exports. It wants 1,024 bytes of work memory, which end as
// any bytes, and a subpath of at most 512 bytes: else it refuses with 25 or 22 and has looked at nothing.
pub fn load_package_exports(
    job: Job<'_>,
    spec: &[u8],
    sub: &[u8],
    dir: &[u8],
    tape: &mut Tape<'_>,
    work: &mut [u8],
) -> ControlFlow<Ending>
    ensures done { DoneUnless (seen_in job.entry) (LOAD_PACKAGE_EXPORTS (settings_in job.entry) spec.now sub.now dir.now) (tape_of tape.old) (room_for (length work.old) (length sub.now)) (tape_of tape.new) (step_of result) }
    ensures same { Same tape.old tape.new }
{
    let work = consults::or_refuse(work.first_chunk_mut(), Refusal::WorkTooShort)?;
    if sub.len() > 512 {
        return ControlFlow::Break(consults::refuse(Refusal::Specifier));
    }
    let Some(package) = directory::own(job.listing, dir, tape)? else {
        return ControlFlow::Continue(());
    };
    by_exports(job, spec, sub, package, tape, work)
}

// LOAD_PACKAGE_SELF(X, DIR), 3. to 6.: where X begins with the name of the scope's manifest.
fn in_scope(
    job: Job<'_>,
    spec: &[u8],
    package: Package<'_>,
    tape: &mut Tape<'_>,
    work: &mut [u8; 1024],
) -> ControlFlow<Ending>
    requires { length spec.now ≤ 512 }
    ensures same { Same tape.old tape.new }
    ensures done { Done (seen_in job.entry) (in_scope (settings_in job.entry) spec.now (record { dir = «package».entry.dir.now; manifest = manifest_view (settings_in job.entry) (json_of «package».entry.manifest.now) })) (tape_of tape.old) (tape_of tape.new) (step_of result) }
{
    let Some(name) = package.text_field(b"name", work) else {
        return ControlFlow::Continue(());
    };
    let Some(n) = package_name::strip_package_name(spec, name) else {
        return ControlFlow::Continue(());
    };
    by_exports(job, spec, specifier::tail(spec, n), package, tape, work)
}

// LOAD_PACKAGE_SELF(X, DIR): without a scope it comes back. It refuses as LOAD_PACKAGE_EXPORTS does, with 22 for a specifier that is over
// 512 bytes long.
pub fn load_package_self(
    job: Job<'_>,
    start: &[u8],
    spec: &[u8],
    tape: &mut Tape<'_>,
    work: &mut [u8],
) -> ControlFlow<Ending>
    ensures done { DoneUnless (seen_in job.entry) (LOAD_PACKAGE_SELF (settings_in job.entry) start.now spec.now) (tape_of tape.old) (room_for (length work.old) (length spec.now)) (tape_of tape.new) (step_of result) }
    ensures same { Same tape.old tape.new }
{
    let work = consults::or_refuse(work.first_chunk_mut(), Refusal::WorkTooShort)?;
    if spec.len() > 512 {
        return ControlFlow::Break(consults::refuse(Refusal::Specifier));
    }
    let Some(package) = directory::scope(job.listing, start, tape)? else {
        return ControlFlow::Continue(());
    };
    in_scope(job, spec, package, tape, work)
}
