// The search of a listing for C: the static library that bench/searches times.
#![tactic(auto)]

ghost use Rattle.std.specs.Prelude.{◌≡◌};
ghost use Rattle.definition.specs.Ask.{asked};
ghost use Rattle.definition.specs.Listing.{found_at};

// `listing::listing_search` under its name for C: 0 nothing, 1 a directory, 2 a file.
#[unsafe(no_mangle)]
pub extern "C" fn listing_search(l: &[u8], path: &[u8]) -> u8
    ensures { result ≡ asked (found_at l.now path.now) }
{
    listing::listing_search(l, path)
}
