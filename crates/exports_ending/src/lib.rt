// How an exports field ends the lookup where it gives no path: the errors of PACKAGE_EXPORTS_RESOLVE and PACKAGE_TARGET_RESOLVE, with the
// texts that they name.

#![tactic(auto)]

ghost use Rattle.std.specs.Prelude.{◌≡◌, [], ◌≤◌, leb, length};
ghost use Rattle.definition.specs.Path.{manifest_of};
ghost use Rattle.definition.specs.Exports.{Context, or_dot};
ghost use Rattle.definition.specs.Ask.{Listing};
ghost use Rattle.definition.specs.Manifest.{resolved_to};
ghost use Rattle.definition.specs.Walk.{given};
ghost use Rattle.targets.specs.Keys.{match_of};
ghost use Rattle.targets.specs.Answers.{outcome_in};
ghost use Rattle.exports.specs.Chosen.{key_text};
ghost use Rattle.consults.specs.Meaning.{tape_of, step_by, Sees, Same};
ghost use Rattle.consults.specs.declared.Case.TheVariants.{InvalidPackageTarget, PackagePathNotExported};
ghost use Rattle.directory.specs.Routines.{Finishes};
ghost use Rattle.directory.specs.Refusals.{DoneUnless};
ghost use Rattle.exports_ending.specs.Endings.{found_of, room_naming};

use consults::{Case, Ending, Tape};
use exports::{Key, Resolved};
use refusal::Refusal;
use std::ops::ControlFlow;
use targets::{Outcome, Span};

// Whether the path of a directory's manifest, for which "/package.json" or "package.json" comes behind it, has at most 2,048 bytes.
fn manifest_fits(dir: &[u8]) -> bool
    ensures { result ≡ leb (length (manifest_of dir.now)) 2048 }
{
    if dir.len() == 2036 {
        text::ends_with(dir, b"/")
    } else {
        dir.len() < 2036
    }
}

// The text of a key; one that stands in the manifest is read into `work`.
fn key_text<'a>(m: &'a [u8], subpath: &'a [u8], key: Key, work: &'a mut [u8; 1024]) -> &'a [u8]
    ensures { result.now ≡ key_text m.now subpath.now key }
{
    match key {
        Key::Dot => b".",
        Key::Subpath => subpath,
        Key::At(i) => package_json::string_at(m, i, work),
    }
}

// The part of the subpath that matched a pattern key, or ".".
#[tactic(auto, unfolding(definition::specs::Exports::or_dot))]
fn match_text<'a>(subpath: &'a [u8], matched: Option<Span>) -> &'a [u8]
    ensures { result.now ≡ or_dot (match_of subpath.now matched) }
{
    match matched {
        Some(part) => part.of(subpath),
        None => b".",
    }
}

// An error that names a target, the key that led to it and the manifest.
fn invalid_target(target: &[u8], key: &[u8], dir: &[u8], tape: &mut Tape<'_>) -> Ending
    requires { length (manifest_of dir.now) ≤ 2048 }
    ensures same { Same tape.old tape.new }
    ensures finishes { Finishes InvalidPackageTarget target.now key.now (manifest_of dir.now) result (tape_of tape.old) (tape_of tape.new) }
{
    let path = path::manifest_path(dir);
    let Some(manifest) = path.as_slice() else {
        return consults::refuse(Refusal::PathTooLong);
    };
    tape.finish(Case::InvalidPackageTarget, target, key, manifest)
}

// An error that names what is not exported, and the package's directory.
fn not_exported(key: &[u8], dir: &[u8], tape: &mut Tape<'_>) -> Ending
    ensures same { Same tape.old tape.new }
    ensures finishes { Finishes PackagePathNotExported key.now dir.now [] result (tape_of tape.old) (tape_of tape.new) }
{
    tape.finish(Case::PackagePathNotExported, key, dir, b"")
}

// How an exports field that gives no path ends the lookup. It wants 1,024 bytes of work memory, which end as any bytes, and a manifest's path
// of at most 2,048 bytes: else it refuses with 25 or 42.
pub fn exports_ending(
    m: &[u8],
    dir: &[u8],
    subpath: &[u8],
    resolved: Resolved,
    target: &[u8],
    tape: &mut Tape<'_>,
    work: &mut [u8],
) -> ControlFlow<Ending>
    ensures same { Same tape.old tape.new }
    ensures done { (L : Listing Sees) (c : Context) → DoneUnless L (given (resolved_to c dir.now subpath.now (outcome_in dir.now (key_text m.now subpath.now resolved.key) (match_of subpath.now resolved.matched) resolved.answer.outcome target.now))) (tape_of tape.old) (room_naming (length work.old) (length (manifest_of dir.now))) (tape_of tape.new) (step_by (found_of c target.now) result) }
{
    let work = consults::or_refuse(work.first_chunk_mut(), Refusal::WorkTooShort)?;
    if !manifest_fits(dir) {
        return ControlFlow::Break(consults::refuse(Refusal::PathTooLong));
    }
    let ending = match resolved.answer.outcome {
        Outcome::Found => return ControlFlow::Continue(()),
        Outcome::Nothing => not_exported(subpath, dir, tape),
        Outcome::Empty => tape.finish(Case::Empty, target, b"", b""),
        Outcome::InvalidTarget => {
            let key = key_text(m, subpath, resolved.key, work);
            invalid_target(target, key, dir, tape)
        }
        Outcome::NotExportedMatch => {
            not_exported(match_text(subpath, resolved.matched), dir, tape)
        }
        Outcome::NotExported => {
            let key = key_text(m, subpath, resolved.key, work);
            not_exported(key, dir, tape)
        }
        Outcome::ConfigMixed => directory::manifest_ending(Case::InvalidPackageConfig, dir, tape),
        Outcome::ConfigDirectory => {
            directory::manifest_ending(Case::InvalidPackageConfigDirectory, dir, tape)
        }
        Outcome::OverLong => consults::refuse(Refusal::PathTooLong),
    };
    ControlFlow::Break(ending)
}
