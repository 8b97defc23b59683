// LOAD_AS_FILE and LOAD_INDEX of lib.rs.

#![tactic(auto)]

ghost use Rattle.std.specs.Prelude.{◌≡◌};
ghost use Rattle.definition.specs.Settings.{Settings};
ghost use Rattle.definition.specs.Called.{seen_by};
ghost use Rattle.definition.specs.Walk.{try_extension, LOAD_AS_FILE, try_index, LOAD_INDEX};
ghost use Rattle.consults.specs.Tape.{Done};
ghost use Rattle.consults.specs.Meaning.{tape_of, step_of, place_of, seen_in, settings_in, Same};
ghost use Rattle.files.specs.Meaning.{load_main_file};

use consults::{Ending, Job, Place, Tape};
use settings::Kind;
use std::ops::ControlFlow;

// LOAD_AS_FILE, step 2: the path with an extension behind it.
fn try_extension(l: &[u8], place: Place<'_>, ext: &[u8], tape: &mut Tape<'_>) -> ControlFlow<Ending>
    ensures same { Same tape.old tape.new }
    ensures done { (G : Settings) → Done (seen_by G l.now) (try_extension G (place_of place.entry) ext.now) (tape_of tape.old) (tape_of tape.new) (step_of result) }
{
    let path = path::add_extension(place.path, ext);
    questions::try_path(l, &path, place, tape)
}

// LOAD_AS_FILE(X)
pub fn load_as_file(job: Job<'_>, place: Place<'_>, tape: &mut Tape<'_>) -> ControlFlow<Ending>
    ensures same { Same tape.old tape.new }
    ensures done { Done (seen_in job.entry) (LOAD_AS_FILE (settings_in job.entry) (place_of place.entry)) (tape_of tape.old) (tape_of tape.new) (step_of result) }
{
    questions::try_file(job.listing, place, tape)?;
    for ext in settings::texts(job.settings, Kind::Extensions) {
        try_extension(job.listing, place, ext, tape)?;
    }
    ControlFlow::Continue(())
}

// LOAD_INDEX, one main file of the settings with one extension.
fn try_index(
    l: &[u8],
    place: Place<'_>,
    file: &[u8],
    ext: &[u8],
    tape: &mut Tape<'_>,
) -> ControlFlow<Ending>
    ensures same { Same tape.old tape.new }
    ensures done { (G : Settings) → Done (seen_by G l.now) (try_index G (place_of place.entry) file.now ext.now) (tape_of tape.old) (tape_of tape.new) (step_of result) }
{
    let path = path::add_name_and_extension(place.path, file, ext);
    questions::try_path(l, &path, place, tape)
}

// LOAD_INDEX, one main file with each extension.
fn load_main_file(
    job: Job<'_>,
    place: Place<'_>,
    file: &[u8],
    tape: &mut Tape<'_>,
) -> ControlFlow<Ending>
    ensures same { Same tape.old tape.new }
    ensures done { Done (seen_in job.entry) (load_main_file (settings_in job.entry) (place_of place.entry) file.now) (tape_of tape.old) (tape_of tape.new) (step_of result) }
{
    for ext in settings::texts(job.settings, Kind::Extensions) {
        try_index(job.listing, place, file, ext, tape)?;
    }
    ControlFlow::Continue(())
}

// LOAD_INDEX(X)
pub fn load_index(job: Job<'_>, place: Place<'_>, tape: &mut Tape<'_>) -> ControlFlow<Ending>
    ensures same { Same tape.old tape.new }
    ensures done { Done (seen_in job.entry) (LOAD_INDEX (settings_in job.entry) (place_of place.entry)) (tape_of tape.old) (tape_of tape.new) (step_of result) }
{
    for file in settings::texts(job.settings, Kind::MainFiles) {
        load_main_file(job, place, file, tape)?;
    }
    ControlFlow::Continue(())
}
