// RESOLVE_ESM_MATCH of lib.rs, over a lent listing: a path that an exports field gave, as a file or as a directory.

#![tactic(auto)]

ghost use Rattle.std.specs.Prelude.{length};
ghost use Rattle.definition.specs.Walk.{never, RESOLVE_ESM_MATCH};
ghost use Rattle.targets.specs.Contexts.{part_text};
ghost use Rattle.consults.specs.Tape.{Done};
ghost use Rattle.consults.specs.Meaning.{settings_in, seen_in, tape_of, step_of, place_of, place, Same};
ghost use Rattle.directory.specs.Refusals.{room_in, DoneUnless};

use consults::{Ending, Job, Place, Tape};
use refusal::Refusal;
use std::ops::ControlFlow;

// RESOLVE_ESM_MATCH(MATCH): it always ends the lookup.
fn resolve_esm_match(
    job: Job<'_>,
    spec: &[u8],
    place: Place<'_>,
    tape: &mut Tape<'_>,
    work: &mut [u8; 1024],
) -> ControlFlow<Ending>
    ensures done { Done (seen_in job.entry) (never (RESOLVE_ESM_MATCH (settings_in job.entry) spec.now (place_of place.entry))) (tape_of tape.old) (tape_of tape.new) (step_of result) }
    ensures same { Same tape.old tape.new }
{
    files::load_as_file(job, place, tape)?;
    directory::load_if_directory(job, place, tape, work)?;
    ControlFlow::Break(tape.not_found(spec))
}

// RESOLVE_ESM_MATCH(MATCH) with a query or a fragment, whose texts are read from the manifest.
fn resolve_with_texts(
    job: Job<'_>,
    spec: &[u8],
    path: &[u8],
    manifest: &[u8],
    context: targets::Context,
    tape: &mut Tape<'_>,
    work: &mut [u8; 1024],
) -> ControlFlow<Ending>
    ensures done { Done (seen_in job.entry) (never (RESOLVE_ESM_MATCH (settings_in job.entry) spec.now (place path.now (part_text manifest.now context.query) (part_text manifest.now context.fragment)))) (tape_of tape.old) (tape_of tape.new) (step_of result) }
    ensures same { Same tape.old tape.new }
{
    let mut query = [0u8; 1024];
    let mut fragment = [0u8; 1024];
    let place = Place {
        path,
        query: context.query.text(manifest, &mut query),
        fragment: context.fragment.text(manifest, &mut fragment),
    };
    resolve_esm_match(job, spec, place, tape, work)
}

// RESOLVE_ESM_MATCH(MATCH) with the query and the fragment of the targets that were tried. It wants 1,024 bytes of work memory, which end as
// any bytes: else it refuses with 25 and has looked at nothing.
pub fn resolve_in_context(
    job: Job<'_>,
    spec: &[u8],
    path: &[u8],
    manifest: &[u8],
    context: targets::Context,
    tape: &mut Tape<'_>,
    work: &mut [u8],
) -> ControlFlow<Ending>
    ensures done { DoneUnless (seen_in job.entry) (never (RESOLVE_ESM_MATCH (settings_in job.entry) spec.now (place path.now (part_text manifest.now context.query) (part_text manifest.now context.fragment)))) (tape_of tape.old) (room_in (length work.old)) (tape_of tape.new) (step_of result) }
    ensures same { Same tape.old tape.new }
{
    let work = consults::or_refuse(work.first_chunk_mut(), Refusal::WorkTooShort)?;
    if context.query.span.len == 0 && context.fragment.span.len == 0 {
        return resolve_esm_match(job, spec, Place::bare(path), tape, work);
    }
    resolve_with_texts(job, spec, path, manifest, context, tape, work)
}
