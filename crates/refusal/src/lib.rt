// The refusals, by who causes them, with their numbers.

#![tactic(auto)]

ghost use Rattle.refusal.specs.Numbers.{Numbers};

#[derive(Clone, Copy, Debug, PartialEq, Eq)]
pub enum Refusal {
    // the caller: an output buffer that is too short
    ResultTooShort,
    ListTooShort,
    // the caller: the question, the settings, work memory
    Specifier,
    Start,
    Settings,
    WorkTooShort,
    // the maker of the listing
    Sizes,
    Order,
    ManifestDirectory,
    // the package author
    ManifestBeyond,
    PathTooLong,
    // the limit of consults
    TooManyConsults,
}

impl From<Refusal> for u8 {
    ghost from_gives = { Numbers };

    fn from(refusal: Refusal) -> u8 {
        match refusal {
            Refusal::ResultTooShort => 20,
            Refusal::ListTooShort => 21,
            Refusal::Specifier => 22,
            Refusal::Start => 23,
            Refusal::Settings => 24,
            Refusal::WorkTooShort => 25,
            Refusal::Sizes => 30,
            Refusal::Order => 31,
            Refusal::ManifestDirectory => 32,
            Refusal::ManifestBeyond => 40,
            Refusal::PathTooLong => 42,
            Refusal::TooManyConsults => 53,
        }
    }
}
