// require(X) of lib.rs for an X that is relative, over a lent listing: `require_relative`.

#![tactic(auto)]

ghost use Rattle.std.specs.Prelude.{◌≡◌, ◌||◌, length};
ghost use Rattle.definition.specs.Text.{text, equal, ends_with};
ghost use Rattle.definition.specs.Walk.{never};
ghost use Rattle.definition.specs.Imports.{require_relative};
ghost use Rattle.consults.specs.Tape.{Done};
ghost use Rattle.consults.specs.Meaning.{settings_in, seen_in, tape_of, step_of, Same};
ghost use Rattle.directory.specs.Refusals.{room_in, DoneUnless};
ghost use Rattle.relative.specs.Routines.{unless_folder, directory_or_none};

use consults::{Ending, Job, Place, Tape};
use refusal::Refusal;
use std::ops::ControlFlow;

// require(X), 3.a: a file is not looked for under "." nor where X ends in "/".
fn is_folder(x: &[u8]) -> bool
    ensures { result ≡ (equal x.now (text ".") || ends_with (text "/") x.now) }
{
    text::equal(x, b".") || text::ends_with(x, b"/")
}

// require(X), 3.a: LOAD_AS_FILE(Y + X).
fn load_unless_folder(
    job: Job<'_>,
    x: &[u8],
    path: &[u8],
    tape: &mut Tape<'_>,
) -> ControlFlow<Ending>
    ensures done { Done (seen_in job.entry) (unless_folder (settings_in job.entry) x.now path.now) (tape_of tape.old) (tape_of tape.new) (step_of result) }
    ensures same { Same tape.old tape.new }
{
    if is_folder(x) {
        return ControlFlow::Continue(());
    }
    files::load_as_file(job, Place::bare(path), tape)
}

// require(X), 3.b and c: LOAD_AS_DIRECTORY(Y + X), or "not found".
fn load_directory_or_none(
    job: Job<'_>,
    x: &[u8],
    path: &[u8],
    tape: &mut Tape<'_>,
    work: &mut [u8; 1024],
) -> ControlFlow<Ending>
    ensures done { Done (seen_in job.entry) (never (directory_or_none (settings_in job.entry) x.now path.now)) (tape_of tape.old) (tape_of tape.new) (step_of result) }
    ensures same { Same tape.old tape.new }
{
    directory::load_if_directory(job, Place::bare(path), tape, work)?;
    ControlFlow::Break(tape.not_found(x))
}

// require(X) from a directory, 3., for an X that is ".", or begins with "./", "/" or "../": it always ends the lookup. It wants 1,024 bytes of work
// memory, which end as any bytes: else it refuses with 25 and has looked at nothing.
pub fn require_relative(
    job: Job<'_>,
    dir: &[u8],
    x: &[u8],
    tape: &mut Tape<'_>,
    work: &mut [u8],
) -> ControlFlow<Ending>
    ensures done { DoneUnless (seen_in job.entry) (never (require_relative (settings_in job.entry) dir.now x.now)) (tape_of tape.old) (room_in (length work.old)) (tape_of tape.new) (step_of result) }
    ensures same { Same tape.old tape.new }
{
    let work = consults::or_refuse(work.first_chunk_mut(), Refusal::WorkTooShort)?;
    let built = path::normalize_with(dir, x);
    let path = consults::or_refuse(built.as_slice(), Refusal::PathTooLong)?;
    load_unless_folder(job, x, path, tape)?;
    load_directory_or_none(job, x, path, tape, work)
}
