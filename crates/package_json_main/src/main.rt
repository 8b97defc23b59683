// Runs the rows of its standard input through `package_json`, and prints for each group how many are as expected: RFC 8259's own examples,
// texts to accept (0) or refuse (7, 40), texts at the limits and one past them, and the readers.
//
// A row is a line of fields with a tab between them, of which the first says what is asked; a line that begins with "#" names a group. In a
// text, "~" and two hex digits stand for a byte.
//
//   check     number, text; or number, head, times, part, tail: a check of the text gives the number
//   prefixes  text: it is accepted, and no start of it is
//   kind      letter, name, manifest: the kind of the root's member
//   text      text, name, manifest: the text of the root's member
//   name      text, i, manifest: the name of the root's i-th member
//   element   text, i, manifest: the text of the root's i-th element
#![tactic(auto)]

ghost use Rattle.std.specs.Prelude.{◌<◌};

use arrayvec::ArrayVec;
use package_json::Kind;
use std::io;
use std::io::{Read, Write};

// As many bytes of standard input are read.
const MOST: u64 = 65536;

// As many bytes of a text to be read are kept, and of a text that a reader is to give.
const ROOM: usize = 20000;

const WANTED_ROOM: usize = 64;

// The i-th field of a row, empty where the row has fewer.
fn field(row: &[u8], i: usize) -> &[u8] {
    row.split(|b| *b == b'\t').nth(i).unwrap_or_default()
}

// The number that a text begins with, modulo 100,000. Each byte from "0" on counts as a digit, one above "9" as more than nine.
fn number(text: &[u8]) -> usize {
    let mut n: usize = 0;
    for b in text {
        if *b < b'0' {
            return n;
        }
        n = (10 * n + usize::from(*b - b'0')) % 100000;
    }
    n
}

// The value of a digit of an escape, a letter in lower case; any other byte has one too.
fn digit(b: u8) -> u8
    ensures { result < 16 }
{
    if b >= b'a' { (b - 87) % 16 } else { b % 16 }
}

// The byte that a text's first one or, behind "~", first three stand for, and what is behind. A digit that is missing counts as 0.
fn meant(text: &[u8]) -> Option<(u8, &[u8])> {
    match text {
        [b'~', high, low, others @ ..] => Some((16 * digit(*high) + digit(*low), others)),
        [b'~', high] => Some((16 * digit(*high), &[])),
        [b'~'] => Some((0, &[])),
        [b, others @ ..] => Some((*b, others)),
        [] => None,
    }
}

// Puts what a field stands for behind a text, as far as there is room.
fn expand<const N: usize>(text: &mut ArrayVec<u8, N>, field: &[u8]) {
    let mut left = field;
    for _ in 0..field.len() {
        let Some((b, others)) = meant(left) else {
            break;
        };
        if text.try_push(b).is_err() {
            break;
        }
        left = others;
    }
}

fn expanded<const N: usize>(field: &[u8]) -> ArrayVec<u8, N> {
    let mut text = ArrayVec::new();
    expand(&mut text, field);
    text
}

// A head, a part so many times, and a tail.
fn repeated(head: &[u8], times: usize, part: &[u8], tail: &[u8]) -> ArrayVec<u8, ROOM> {
    let mut text = expanded(head);
    for _ in 0..times {
        expand(&mut text, part);
    }
    expand(&mut text, tail);
    text
}

// Whether a text is accepted, and no start of it.
fn has_no_start(text: &[u8]) -> bool {
    package_json::package_json_check(text) == 0
        && (0..text.len()).all(|n| package_json::package_json_check(&text[..n]) == 7)
}

fn kind_letter(manifest: &[u8], name: &[u8]) -> u8 {
    let member = package_json::get(manifest, 0, name);
    match member.and_then(|at| package_json::kind_at(manifest, at)) {
        Some(Kind::Scalar) => b'0',
        Some(Kind::String) => b's',
        Some(Kind::Array) => b'a',
        Some(Kind::Object) => b'o',
        None => b'-',
    }
}

// Whether the string at a place has the text; where there is none, whether the text is empty.
fn has_text(manifest: &[u8], at: Option<usize>, wanted: &[u8]) -> bool {
    let Some(at) = at else {
        return wanted.is_empty();
    };
    let mut work = [0u8; 1024];
    let text = json_text::read_text(manifest, at, &mut work);
    json_text::text_at(manifest, &work, text) == wanted
}

// The rows of the readers.
fn is_read(row: &[u8]) -> bool {
    let which = field(row, 2);
    let manifest = expanded::<ROOM>(field(row, 3));
    let wanted = expanded::<WANTED_ROOM>(field(row, 1));
    let at = match row {
        [b'k', ..] => return field(row, 1).first() == Some(&kind_letter(&manifest, which)),
        [b't', ..] => package_json::get(&manifest, 0, which),
        [b'n', ..] => package_json::member(&manifest, 0, number(which)),
        [b'e', ..] => package_json::element(&manifest, 0, number(which)),
        _ => return false,
    };
    has_text(&manifest, at, &wanted)
}

// A row's first letter says what is asked.
fn is_expected(row: &[u8]) -> bool {
    match row {
        [b'c', ..] => {
            let times = number(field(row, 3));
            let text = repeated(field(row, 2), times, field(row, 4), field(row, 5));
            usize::from(package_json::package_json_check(&text)) == number(field(row, 1))
        }
        [b'p', ..] => has_no_start(&expanded::<ROOM>(field(row, 1))),
        _ => is_read(row),
    }
}

fn report(rt: &impl Print, expected: usize) -> io::Result<()> {
    println!(rt; ": {expected} as expected")
}

fn main(rt: HostRuntime) -> io::Result<()> {
    let mut rows = Vec::new(rt.alloc());
    rt.reader().take(MOST).read_to_end(&mut rows)?;
    let mut expected: usize = 0;
    for (i, line) in rows.split_inclusive(|b| *b == b'\n').enumerate() {
        let row = match line {
            [row @ .., b'\n'] => row,
            _ => line,
        };
        if row.first() == Some(&b'#') {
            if i > 0 {
                report(&rt, expected)?;
            }
            io::writer(&rt).write_all(row.get(2..).unwrap_or_default())?;
            expected = 0;
        } else if is_expected(row) {
            expected = expected.saturating_add(1);
        } else {
            print!(rt; "\nnot as expected: ")?;
            io::writer(&rt).write_all(row)?;
        }
    }
    report(&rt, expected)
}
