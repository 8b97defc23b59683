// The lookup for C and other languages: the static library that bindings/ and compare/ link.
#![tactic(auto)]

ghost use Rattle.std.specs.Prelude.{◌≡◌, length};
ghost use Rattle.definition.specs.Called.{called};
ghost use Rattle.lookup.specs.Meaning.{asked, exported, in_counts};
ghost use Rattle.output.specs.Meaning.{rooms_of};

// `lookup::hannuvozh_lookup` under its name for C.
#[unsafe(no_mangle)]
pub extern "C" fn hannuvozh_lookup(
    listing: &[u8],
    settings: &[u8],
    start: &[u8],
    specifier: &[u8],
    limit: u32,
    res: &mut [u8],
    list_numbers: &mut [u32],
    list_text: &mut [u8],
    work: &mut [u8],
    counts: &mut [u32; 4],
) -> u32
    ensures { exported result counts.new res.new list_numbers.new list_text.new work.new ≡ in_counts (called (asked listing.now settings.now start.now specifier.now limit) (rooms_of res.old list_numbers.old list_text.old (length work.old))) }
{
    lookup::hannuvozh_lookup(
        listing,
        settings,
        start,
        specifier,
        limit,
        res,
        list_numbers,
        list_text,
        work,
        counts,
    )
}
