// Runs texts with known answers through the functions of `text` and `utf8`, and prints for each group how many are as expected.
#![tactic(auto)]

use std::io;

// The examples of RFC 3629.
const EXAMPLES: &[&[u8]] = &[
    b"A\xE2\x89\xA2\xCE\x91.",
    b"\xED\x95\x9C\xEA\xB5\xAD\xEC\x96\xB4",
    b"\xE6\x97\xA5\xE6\x9C\xAC\xE8\xAA\x9E",
    b"\xEF\xBB\xBF\xF0\xA3\x8E\xB4",
];

// The first and the last character of each form, and texts of several forms.
const FORMS: &[&[u8]] = &[
    b"\x00",
    b"\x7F",
    b"\xC2\x80",
    b"\xDF\xBF",
    b"\xE0\xA0\x80",
    b"\xE0\xBF\xBF",
    b"\xE1\x80\x80",
    b"\xEC\xBF\xBF",
    b"\xED\x80\x80",
    b"\xED\x9F\xBF",
    b"\xEE\x80\x80",
    b"\xEF\xBF\xBF",
    b"\xF0\x90\x80\x80",
    b"\xF0\xBF\xBF\xBF",
    b"\xF1\x80\x80\x80",
    b"\xF3\xBF\xBF\xBF",
    b"\xF4\x80\x80\x80",
    b"\xF4\x8F\xBF\xBF",
    b"",
    b"a\xC3\xA9b",
    b"\xF0\x9F\x98\x80\xE2\x82\xAC",
];

// Characters of two bytes or more.
const WIDE: &[&[u8]] = &[
    b"\xC2\x80",
    b"\xDF\xBF",
    b"\xE0\xA0\x80",
    b"\xE0\xBF\xBF",
    b"\xE1\x80\x80",
    b"\xEC\xBF\xBF",
    b"\xED\x80\x80",
    b"\xED\x9F\xBF",
    b"\xEE\x80\x80",
    b"\xEF\xBF\xBF",
    b"\xF0\x90\x80\x80",
    b"\xF0\xBF\xBF\xBF",
    b"\xF1\x80\x80\x80",
    b"\xF3\xBF\xBF\xBF",
    b"\xF4\x80\x80\x80",
    b"\xF4\x8F\xBF\xBF",
];

const OVERLONG: &[&[u8]] = &[
    b"\xC0\x80",
    b"\xC1\xBF",
    b"\xE0\x80\x80",
    b"\xE0\x9F\xBF",
    b"\xF0\x80\x80\x80",
    b"\xF0\x8F\xBF\xBF",
];

const SURROGATES: &[&[u8]] = &[
    b"\xED\xA0\x80",
    b"\xED\xAF\xBF",
    b"\xED\xB0\x80",
    b"\xED\xBF\xBF",
    b"\xED\xA0\x80\xED\xB0\x80",
];

const PAST_LAST: &[&[u8]] = &[
    b"\xF4\x90\x80\x80",
    b"\xF4\xBF\xBF\xBF",
    b"\xF5\x80\x80\x80",
    b"\xF7\xBF\xBF\xBF",
    b"\xF8\x88\x80\x80\x80",
    b"\xFC\x84\x80\x80\x80\x80",
    b"\xFE\xFF",
    b"\xFF\xFE",
];

const OUT_OF_PLACE: &[&[u8]] = &[
    b"\x80",
    b"\xBF",
    b"A\x80",
    b"\xC2A",
    b"\xC2\xC0",
    b"\xC2\x80\x80",
    b"\xE1A\x80",
    b"\xE1\x80A",
    b"\xE1\x80\xC0",
    b"\xF1A\x80\x80",
    b"\xF1\x80A\x80",
    b"\xF1\x80\x80A",
    b"\xF0\x90A\x80",
    b"\xF4\x8F\x80A",
    b"\xE2\x82A",
    b"ab\xC3",
];

// Two texts, and whether a test holds of them.
type Pair = (&'static [u8], &'static [u8], bool);

const EQUAL: &[Pair] = &[
    (b"", b"", true),
    (b"abc", b"abc", true),
    (b"abc", b"abd", false),
    (b"abc", b"ab", false),
    (b"", b"a", false),
    (b"abc", b"Abc", false),
];

const EQUAL_BUT_CASE: &[Pair] = &[
    (b"node_modules", b"NODE_Modules", true),
    (b"@AZaz[", b"@azAZ[", true),
    (b"@", b"`", false),
    (b"[", b"{", false),
    (b"ab", b"abc", false),
    (b"", b"", true),
    (b"\xC3\x89", b"\xC3\xA9", false),
];

const ORDER: &[Pair] = &[
    (b"", b"", false),
    (b"", b"a", true),
    (b"a", b"", false),
    (b"ab", b"abc", true),
    (b"abc", b"ab", false),
    (b"abc", b"abd", true),
    (b"abd", b"abc", false),
    (b"abc", b"abc", false),
    (b"a\x7F", b"a\x80", true),
    (b"a-b", b"a/b", true),
    (b"B", b"a", true),
    (b"abz", b"b", true),
];

const INSIDE: &[Pair] = &[
    (b"", b"", true),
    (b"abc", b"", true),
    (b"", b"a", false),
    (b"aab", b"ab", true),
    (b"abc", b"c", true),
    (b"abc", b"ac", false),
    (b"ab", b"abc", false),
    (b"a/node_modules/b", b"/node_modules/", true),
];

// Where in a text the other stands.
enum Edge {
    Start,
    End,
}

const EDGES: &[(Edge, &[u8], &[u8], bool)] = &[
    (Edge::Start, b"abc", b"ab", true),
    (Edge::Start, b"abc", b"", true),
    (Edge::Start, b"abc", b"abc", true),
    (Edge::Start, b"abc", b"abcd", false),
    (Edge::Start, b"abc", b"b", false),
    (Edge::Start, b"", b"a", false),
    (Edge::End, b"abc", b"bc", true),
    (Edge::End, b"abc", b"", true),
    (Edge::End, b"abc", b"abc", true),
    (Edge::End, b"abc", b"zabc", false),
    (Edge::End, b"abc", b"b", false),
    (Edge::End, b"", b"a", false),
];

// What is asked of a byte in a text, with the answer.
enum Asked {
    Count(usize),
    Find { from: usize, at: usize },
    FindLast(usize),
    Contains(bool),
}

const PLACES: &[(Asked, u8, &[u8])] = &[
    (Asked::Count(0), b'a', b""),
    (Asked::Count(3), b'a', b"banana"),
    (Asked::Count(0), b'z', b"banana"),
    (Asked::Find { from: 0, at: 1 }, b'a', b"banana"),
    (Asked::Find { from: 0, at: 0 }, b'b', b"banana"),
    (Asked::Find { from: 0, at: 6 }, b'z', b"banana"),
    (Asked::Find { from: 0, at: 0 }, b'z', b""),
    (Asked::Find { from: 2, at: 3 }, b'a', b"banana"),
    (Asked::Find { from: 2, at: 2 }, b'n', b"banana"),
    (Asked::Find { from: 2, at: 6 }, b'b', b"banana"),
    (Asked::Find { from: 2, at: 2 }, b'b', b"b"),
    (Asked::Contains(true), b'n', b"banana"),
    (Asked::Contains(false), b'z', b"banana"),
    (Asked::Contains(false), b'z', b""),
    (Asked::FindLast(5), b'a', b"banana"),
    (Asked::FindLast(0), b'b', b"banana"),
    (Asked::FindLast(4), b'n', b"banana"),
    (Asked::FindLast(6), b'z', b"banana"),
    (Asked::FindLast(0), b'z', b""),
];

// A place, a text, and what "abcdefgh" is once the text was put there.
const COPIES: &[(usize, &[u8], &[u8])] = &[
    (0, b"XYZ", b"XYZdefgh"),
    (5, b"XYZ", b"abcdeXYZ"),
    (6, b"XYZ", b"abcdefXY"),
    (7, b"XYZ", b"abcdefgX"),
    (8, b"XYZ", b"abcdefgh"),
    (200, b"XYZ", b"abcdefgh"),
    (3, b"", b"abcdefgh"),
    (0, b"ABCDEFGHIJ", b"ABCDEFGH"),
    (2, b"ABCDEFGHIJ", b"abABCDEF"),
];

// The places of a buffer of eight, its end, and one past that.
const FILLS: &[usize] = &[0, 1, 2, 3, 4, 5, 6, 7, 8, 9];

// The group's name, and how many of its rows are as expected; or how many are before the first that is not.
fn report<T, F: Fn(&T) -> bool>(
    rt: &impl Print,
    name: &str,
    rows: &[T],
    is_expected: F,
) -> io::Result<()>
    requires { F.IsAlwaysCallable is_expected }
{
    match rows.iter().position(|row| !is_expected(row)) {
        None => println!(rt; "{name}: {} as expected", rows.len()),
        Some(n) => println!(rt; "{name}: not as expected after row {n}"),
    }
}

// No shorter start of a character is UTF-8, the empty one apart.
fn has_no_cut(character: &[u8]) -> bool {
    (1..character.len()).all(|n| !utf8::is_utf8(&character[..n]))
}

fn is_edge(edge: &Edge, text: &[u8], other: &[u8]) -> bool {
    match edge {
        Edge::Start => text::starts_with(text, other),
        Edge::End => text::ends_with(text, other),
    }
}

fn is_answer(asked: &Asked, b: u8, text: &[u8]) -> bool {
    match *asked {
        Asked::Count(n) => text::count(text, b) == n,
        Asked::Find { from, at } => text::find(text, b, from) == at,
        Asked::FindLast(at) => text::rfind(text, b) == at,
        Asked::Contains(wanted) => text::contains(text, b) == wanted,
    }
}

fn is_copied(at: usize, text: &[u8], wanted: &[u8]) -> bool {
    let mut buffer = *b"abcdefgh";
    text::copy_at(&mut buffer, at, text);
    buffer.as_slice() == wanted
}

// Zeros from the place on, and before it what was there.
fn is_filled(from: usize) -> bool {
    let mut bytes = [7u8; 8];
    let mut words = [7u32; 8];
    text::zero_from(&mut bytes, from);
    text::zero_from(&mut words, from);
    (0..8usize).all(|i| {
        let wanted = if i < from { 7 } else { 0 };
        bytes[i] == wanted && words[i] == u32::from(wanted)
    })
}

fn utf8(rt: &impl Print) -> io::Result<()> {
    let bytes: [u8; 256] = std::array::from_fn(|i| i as u8);
    report(
        rt,
        "utf8, each byte alone",
        &bytes,
        |b| utf8::is_utf8(&[*b]) == b.is_ascii(),
    )?;
    report(
        rt,
        "utf8, the examples of RFC 3629",
        EXAMPLES,
        |t| utf8::is_utf8(t),
    )?;
    report(
        rt,
        "utf8, first and last of each form",
        FORMS,
        |t| utf8::is_utf8(t),
    )?;
    report(rt, "utf8, cut off", WIDE, |t| has_no_cut(t))?;
    report(rt, "utf8, overlong", OVERLONG, |t| !utf8::is_utf8(t))?;
    report(rt, "utf8, surrogates", SURROGATES, |t| !utf8::is_utf8(t))?;
    report(
        rt,
        "utf8, past the last character",
        PAST_LAST,
        |t| !utf8::is_utf8(t),
    )?;
    report(
        rt,
        "utf8, out of place",
        OUT_OF_PLACE,
        |t| !utf8::is_utf8(t),
    )
}

fn tests(rt: &impl Print) -> io::Result<()> {
    report(
        rt,
        "equal",
        EQUAL,
        |(a, b, wanted)| text::equal(a, b) == *wanted,
    )?;
    report(
        rt,
        "equal but for the case",
        EQUAL_BUT_CASE,
        |(a, b, wanted)| text::eq_ignore_ascii_case(a, b) == *wanted,
    )?;
    report(
        rt,
        "order",
        ORDER,
        |(a, b, wanted)| text::less(a, b) == *wanted,
    )?;
    report(
        rt,
        "start and end",
        EDGES,
        |(edge, a, b, wanted)| is_edge(edge, a, b) == *wanted,
    )?;
    report(
        rt,
        "text in a text",
        INSIDE,
        |(a, b, wanted)| text::contains_text(a, b) == *wanted,
    )
}

fn places(rt: &impl Print) -> io::Result<()> {
    report(
        rt,
        "places and counts of a byte",
        PLACES,
        |(asked, b, text)| is_answer(asked, *b, text),
    )?;
    report(
        rt,
        "copy",
        COPIES,
        |(at, text, wanted)| is_copied(*at, text, wanted),
    )?;
    report(rt, "fill", FILLS, |from| is_filled(*from))
}

fn main(rt: HostRuntime) -> io::Result<()> {
    utf8(&rt)?;
    tests(&rt)?;
    places(&rt)
}
