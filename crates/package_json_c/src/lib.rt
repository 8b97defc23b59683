// The check of a manifest for C: the static library that bench/json.c times.
#![tactic(auto)]

ghost use Rattle.std.specs.Prelude.{◌≡◌};
ghost use Rattle.definition.specs.JsonAt.{check as checkOf};
ghost use Rattle.package_json.specs.Cursors.{number_of};

// `package_json::package_json_check` under its name for C: 01's number, 0 for a manifest without fault.
#[unsafe(no_mangle)]
pub extern "C" fn package_json_check(m: &[u8]) -> u8
    ensures { result ≡ number_of (checkOf m.now) }
{
    package_json::package_json_check(m)
}
