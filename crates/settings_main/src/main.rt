// Runs settings with known answers through the functions of `settings`, and prints for each group how many are as expected.
#![tactic(auto)]

use settings::Kind;
use std::io;
use std::io::Write;

// Settings that are in order. They hold how many texts each of the six kinds has, how long each text is, and the texts.
const ACCEPTED: &[&[u8]] = &[
    b"\x01\x01\x01\x01\x01\x01\x06\x03\x04\x05\x07\x07import.jsmainindexexportsimports",
    b"\x00\x00\x00\x00\x00\x01\x01i",
    b"\x00\x01\x00\x00\x00\x01\x00\x01i",
    b"\x08\x08\x04\x04\x02\x01\x01\x01\x01\x01\x01\x01\x01\x01\x00\x00\x00\x00\x00\x00\x00\x00\x01\x01\x01\x01\x01\x01\x01\x01\x01\x01\x01aaaaaaaabbbbccccdde",
    b"\x01\x01\x01\x01\x01\x01      xxxxxxxxxxxxxxxxxxxxxxxxxxxxxxxxyyyyyyyyyyyyyyyyyyyyyyyyyyyyyyyyzzzzzzzzzzzzzzzzzzzzzzzzzzzzzzzzuuuuuuuuuuuuuuuuuuuuuuuuuuuuuuuuvvvvvvvvvvvvvvvvvvvvvvvvvvvvvvvvwwwwwwwwwwwwwwwwwwwwwwwwwwwwwwww",
    b"\x01\x01\x01\x01\x01\x01\x03\x01\x01\x02\x03\x01n\xC3\xA9....a\\b#",
    b"\x02\x02\x00\x00\x00\x01\x01\x01\x03\x03\x01aa.js.jsa",
];

const OVER_LIMIT: &[&[u8]] = &[
    b"\x09\x00\x00\x00\x00\x01\x01\x01\x01\x01\x01\x01\x01\x01\x01\x01aaaaaaaaai",
    b"\x00\x09\x00\x00\x00\x01\x01\x01\x01\x01\x01\x01\x01\x01\x01\x01aaaaaaaaai",
    b"\x00\x00\x05\x00\x00\x01\x01\x01\x01\x01\x01\x01aaaaai",
    b"\x00\x00\x00\x05\x00\x01\x01\x01\x01\x01\x01\x01aaaaai",
    b"\x00\x00\x00\x00\x03\x01\x01\x01\x01\x01aaai",
    b"\x00\x00\x00\x00\x00\x02\x01\x01aa",
];

const NO_IMPORTS_FIELD: &[&[u8]] = &[
    b"\x00\x00\x00\x00\x00\x00",
    b"\x01\x01\x01\x01\x01\x00\x06\x03\x04\x05\x07import.jsmainindexexports",
    b"\x01\x01\x01\x01\x01\x06\x03\x04\x05\x07import.jsmainindexexports",
    b"\x00\x00\x00\x00\x00",
];

const TEXTS_OF_33: &[&[u8]] = &[
    b"\x01\x00\x00\x00\x00\x01\x21\x01xxxxxxxxxxxxxxxxxxxxxxxxxxxxxxxxxi",
    b"\x00\x01\x00\x00\x00\x01\x21\x01xxxxxxxxxxxxxxxxxxxxxxxxxxxxxxxxxi",
    b"\x00\x00\x01\x00\x00\x01\x21\x01xxxxxxxxxxxxxxxxxxxxxxxxxxxxxxxxxi",
    b"\x00\x00\x00\x01\x00\x01\x21\x01xxxxxxxxxxxxxxxxxxxxxxxxxxxxxxxxxi",
    b"\x00\x00\x00\x00\x01\x01\x21\x01xxxxxxxxxxxxxxxxxxxxxxxxxxxxxxxxxi",
    b"\x00\x00\x00\x00\x00\x01\x21xxxxxxxxxxxxxxxxxxxxxxxxxxxxxxxxx",
];

const EMPTY_TEXTS: &[&[u8]] = &[
    b"\x01\x00\x00\x00\x00\x01\x00\x01i",
    b"\x00\x00\x01\x00\x00\x01\x00\x01i",
    b"\x00\x00\x00\x01\x00\x01\x00\x01i",
    b"\x00\x00\x00\x00\x01\x01\x00\x01i",
    b"\x00\x00\x00\x00\x00\x01\x00",
];

const BAD_BYTES: &[&[u8]] = &[
    b"\x01\x00\x00\x00\x00\x01\x03\x01a/bi",
    b"\x00\x01\x00\x00\x00\x01\x01\x01/i",
    b"\x00\x00\x01\x00\x00\x01\x02\x01a\x00i",
    b"\x00\x00\x00\x01\x00\x01\x01\x01\x00i",
    b"\x00\x00\x00\x00\x01\x01\x01\x01\xFFi",
    b"\x00\x01\x00\x00\x00\x01\x03\x01.\xC0\x80i",
    b"\x01\x00\x00\x00\x00\x01\x03\x01\xED\xA0\x80i",
    b"\x01\x01\x01\x00\x00\x01\x02\x03\x02\x01ok.js\xE2\x82i",
    b"\x00\x02\x00\x00\x00\x01\x01\x01\x01a\xC3i",
    b"\x00\x00\x00\x00\x00\x01\x03a/b",
    b"\x00\x00\x00\x00\x00\x01\x02i\x00",
    b"\x00\x00\x00\x00\x00\x01\x01\xFF",
];

const BAD_LENGTHS: &[&[u8]] = &[
    b"",
    b"\x01\x01\x01\x01",
    b"\x01\x01\x01\x01\x01",
    b"\x01\x01\x01\x01\x01\x01",
    b"\x01\x01\x01\x01\x01\x01\x06\x03",
    b"\x01\x01\x01\x01\x01\x01\x06\x03\x04\x05\x07\x07",
    b"\x01\x01\x01\x01\x01\x01\x06\x03\x04\x05\x07\x07import.jsmainindexexportsimport",
    b"\x01\x01\x01\x01\x01\x01\x06\x03\x04\x05\x07\x07import.jsmainindexexportsimports\x00",
    b"\x01\x01\x01\x01\x01\x01\x06\x03\x04\x05\x07\x07import.jsmainindexexportsimportsx",
    b"\x00\x00\x00\x00\x00\x01\x01i\x00",
    b"\x01\x00\x00\x00\x00\x01",
    b"\x01\x00\x00\x00\x00\x01\x02\x01a",
    b"\x00\x00\x00\x00\x00\x01\xFF",
    b"\x00\x00\x00\x00\x00\x01\x02i",
];

// A kind, a place, and the text of the kind at that place.
type Text = (Kind, usize, &'static [u8]);

// A kind, and how many texts it has.
type Count = (Kind, usize);

const WHOLE: &[u8] =
    b"\x02\x03\x01\x02\x01\x01\x06\x04\x03\x00\x05\x04\x05\x07\x07\x07importnode.js.jsonmainindexdefaultexportsimports";

const WHOLE_TEXTS: &[Text] = &[
    (Kind::Conditions, 0, b"import"),
    (Kind::Conditions, 1, b"node"),
    (Kind::Conditions, 2, b""),
    (Kind::Extensions, 0, b".js"),
    (Kind::Extensions, 1, b""),
    (Kind::Extensions, 2, b".json"),
    (Kind::Extensions, 3, b""),
    (Kind::MainFields, 0, b"main"),
    (Kind::MainFields, 1, b""),
    (Kind::MainFiles, 0, b"index"),
    (Kind::MainFiles, 1, b"default"),
    (Kind::MainFiles, 2, b""),
    (Kind::ExportsFields, 0, b"exports"),
    (Kind::ExportsFields, 1, b""),
    (Kind::ImportsFields, 0, b"imports"),
    (Kind::ImportsFields, 1, b""),
    (Kind::Conditions, 255, b""),
];

const WHOLE_COUNTS: &[Count] = &[
    (Kind::Conditions, 2),
    (Kind::Extensions, 3),
    (Kind::MainFields, 1),
    (Kind::MainFiles, 2),
    (Kind::ExportsFields, 1),
    (Kind::ImportsFields, 1),
];

// Settings that end within their texts.
const CUT: &[u8] = b"\x01\x02\x00\x00\x01\x01\x02\x03\x01\x04\x02abcdefg";

const CUT_TEXTS: &[Text] = &[
    (Kind::Conditions, 0, b"ab"),
    (Kind::Extensions, 0, b"cde"),
    (Kind::Extensions, 1, b"f"),
    (Kind::ExportsFields, 0, b"g"),
    (Kind::ExportsFields, 1, b""),
    (Kind::ImportsFields, 0, b""),
];

const CUT_COUNTS: &[Count] = &[
    (Kind::Conditions, 1),
    (Kind::Extensions, 2),
    (Kind::MainFields, 0),
    (Kind::MainFiles, 0),
    (Kind::ExportsFields, 1),
    (Kind::ImportsFields, 1),
];

// Settings that end behind their lengths.
const BARE: &[u8] = b"\x02\x01\x00\x00\x00\x01\x01\x01";

const BARE_TEXTS: &[Text] = &[
    (Kind::Conditions, 0, b""),
    (Kind::Conditions, 1, b""),
    (Kind::Extensions, 0, b""),
    (Kind::ExportsFields, 0, b""),
    (Kind::ImportsFields, 0, b""),
];

const BARE_COUNTS: &[Count] = &[
    (Kind::Conditions, 2),
    (Kind::Extensions, 0),
    (Kind::MainFields, 0),
    (Kind::MainFiles, 0),
    (Kind::ExportsFields, 0),
    (Kind::ImportsFields, 0),
];

// Of no bytes at all.
const NO_TEXTS: &[Text] = &[
    (Kind::Conditions, 0, b""),
    (Kind::ExportsFields, 0, b""),
    (Kind::ImportsFields, 0, b""),
];

const NO_COUNTS: &[Count] = &[
    (Kind::Conditions, 0),
    (Kind::ExportsFields, 0),
    (Kind::ImportsFields, 0),
];

// Settings whose texts are printed, with the name of each kind.
const PRINTED: &[u8] =
    b"\x01\x01\x01\x01\x01\x01\x06\x03\x04\x05\x07\x07import.jsmainindexexportsimports";

const NAMES: &[(&str, Kind)] = &[
    ("conditions", Kind::Conditions),
    ("extensions", Kind::Extensions),
    ("main fields", Kind::MainFields),
    ("main files", Kind::MainFiles),
    ("exports fields", Kind::ExportsFields),
    ("imports field", Kind::ImportsFields),
];

// The group's name, and how many of its rows are as expected; or how many are before the first that is not.
fn report<T, F: Fn(&T) -> bool>(
    rt: &impl Print,
    name: &str,
    rows: &[T],
    is_expected: F,
) -> io::Result<()>
    requires { F.IsAlwaysCallable is_expected }
{
    match rows.iter().position(|row| !is_expected(row)) {
        None => println!(rt; "{name}: {} as expected", rows.len()),
        Some(n) => println!(rt; "{name}: not as expected after row {n}"),
    }
}

fn report_checks(rt: &impl Print, name: &str, rows: &[&[u8]], wanted: bool) -> io::Result<()> {
    report(rt, name, rows, |s| settings::check(s) == wanted)
}

fn report_texts(rt: &impl Print, name: &str, s: &[u8], rows: &[Text]) -> io::Result<()> {
    report(
        rt,
        name,
        rows,
        |(kind, i, wanted)| settings::text(s, *kind, *i) == *wanted,
    )
}

fn report_counts(rt: &impl Print, name: &str, s: &[u8], rows: &[Count]) -> io::Result<()> {
    report(
        rt,
        name,
        rows,
        |(kind, wanted)| settings::count(s, *kind) == *wanted,
    )
}

fn checks(rt: &impl Print) -> io::Result<()> {
    report_checks(rt, "accepted", ACCEPTED, true)?;
    report_checks(rt, "counts over the limit", OVER_LIMIT, false)?;
    report_checks(rt, "no imports field", NO_IMPORTS_FIELD, false)?;
    report_checks(rt, "texts of 33 bytes", TEXTS_OF_33, false)?;
    report_checks(rt, "empty texts", EMPTY_TEXTS, false)?;
    report_checks(rt, "slash, byte 0 and bad UTF-8", BAD_BYTES, false)?;
    report_checks(rt, "cut off or too long", BAD_LENGTHS, false)
}

fn texts(rt: &impl Print) -> io::Result<()> {
    report_texts(rt, "texts by kind", WHOLE, WHOLE_TEXTS)?;
    report_counts(rt, "counts by kind", WHOLE, WHOLE_COUNTS)?;
    report_texts(rt, "texts of cut settings", CUT, CUT_TEXTS)?;
    report_counts(rt, "counts of cut settings", CUT, CUT_COUNTS)?;
    report_texts(rt, "texts without bytes", BARE, BARE_TEXTS)?;
    report_counts(rt, "counts without bytes", BARE, BARE_COUNTS)?;
    report_texts(rt, "texts of nothing", b"", NO_TEXTS)?;
    report_counts(rt, "counts of nothing", b"", NO_COUNTS)
}

// The texts of a kind on one line.
fn print_texts(rt: &impl Print, name: &str, s: &[u8], kind: Kind) -> io::Result<()> {
    print!(rt; "{name}:")?;
    for text in settings::texts(s, kind) {
        print!(rt; " ")?;
        io::writer(rt).write_all(text)?;
    }
    println!(rt)
}

fn main(rt: HostRuntime) -> io::Result<()> {
    checks(&rt)?;
    texts(&rt)?;
    for (name, kind) in NAMES {
        print_texts(&rt, name, PRINTED, *kind)?;
    }
    Ok(())
}
