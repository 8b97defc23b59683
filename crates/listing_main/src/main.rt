// Runs listings with known answers through the check and the search, and prints for each group how many are as expected.
#![tactic(auto)]

use listing::Found;
use refusal::Refusal;
use std::{array, io};

type Text = &'static [u8];

// An entry of a listing: a directory's path, or a file's with the file's contents.
#[derive(Clone, Copy)]
enum Entry<'a> {
    Directory(&'a [u8]),
    File(&'a [u8], &'a [u8]),
}

impl<'a> Entry<'a> {
    fn path(self) -> &'a [u8] {
        match self {
            Entry::Directory(path) | Entry::File(path, _) => path,
        }
    }

    fn contents(self) -> &'a [u8] {
        match self {
            Entry::Directory(_) => b"",
            Entry::File(_, contents) => contents,
        }
    }

    // What the listing has for the length of its contents.
    fn mark(self) -> u32 {
        match self {
            Entry::Directory(_) => u32::MAX,
            Entry::File(_, contents) => number(contents.len()),
        }
    }
}

// What a search finds at a path.
enum Sought {
    Absent(Text),
    Directory(Text),
    File(Text, Text),
}

// A listing in order.
const PRINTED: &[Entry<'static>] = &[
    Entry::Directory(b"/"),
    Entry::Directory(b"/p"),
    Entry::Directory(b"/p/node_modules"),
    Entry::Directory(b"/p/node_modules/mat"),
    Entry::Directory(b"/p/node_modules/mat/lib"),
    Entry::File(b"/p/node_modules/mat/lib/steel.js", b""),
    Entry::File(
        b"/p/node_modules/mat/package.json",
        b"{\"exports\":{\"./*\":\"./lib/*.js\"}}",
    ),
];

// One in which a number or the length is changed.
const ALTERED: &[Entry<'static>] = &[
    Entry::Directory(b"/"),
    Entry::Directory(b"/a"),
    Entry::File(b"/a/package.json", b"{}"),
];

enum Change {
    // the number of 32 bits at a place
    Number(usize, u32),
    OneMore,
    OneLess,
}

const CHANGES: &[(Change, Result<(), Refusal>)] = &[
    (Change::Number(0, 3), Ok(())),
    // the count: none, one more, one less, the most that 32 bits hold
    (Change::Number(0, 0), Err(Refusal::Sizes)),
    (Change::Number(0, 4), Err(Refusal::Sizes)),
    (Change::Number(0, 2), Err(Refusal::Sizes)),
    (Change::Number(0, 4294967295), Err(Refusal::Sizes)),
    // the text length, a path length, a contents length, a directory that becomes a file
    (Change::Number(4, 19), Err(Refusal::Sizes)),
    (Change::Number(8, 2), Err(Refusal::Sizes)),
    (Change::Number(28, 1), Err(Refusal::Sizes)),
    (Change::Number(24, 1), Err(Refusal::Sizes)),
    (Change::OneMore, Err(Refusal::Sizes)),
    (Change::OneLess, Err(Refusal::Sizes)),
];

// The most of something that a listing may have, and one more.
enum Size {
    // bytes of a path
    Path(usize),
    // components of a path
    Depth(usize),
    Entries(usize),
    // bytes of the listing
    Whole(usize),
}

const LIMITS: &[(Size, Result<(), Refusal>)] = &[
    (Size::Path(1024), Ok(())),
    (Size::Path(1025), Err(Refusal::Sizes)),
    (Size::Depth(32), Ok(())),
    (Size::Depth(33), Err(Refusal::Sizes)),
    (Size::Entries(1024), Ok(())),
    (Size::Entries(1025), Err(Refusal::Sizes)),
    (Size::Whole(65536), Ok(())),
    (Size::Whole(65537), Err(Refusal::Sizes)),
];

// Names with dots and beyond ASCII, an empty manifest, a name that "/" sorts before, a longer name than package.json.
const ACCEPTED: &[&[Entry<'static>]] = &[
    &[Entry::Directory(b"/")],
    &[
        Entry::Directory(b"/"),
        Entry::File(b"/...", b""),
        Entry::File(b"/..a", b""),
        Entry::File(b"/.a", b""),
    ],
    &[
        Entry::Directory(b"/"),
        Entry::File(b"/\xC3\xA9", b""),
        Entry::File(b"/\xF0\x9F\x98\x80", b""),
    ],
    &[Entry::Directory(b"/"), Entry::File(b"/package.json", b"")],
    &[
        Entry::Directory(b"/"),
        Entry::Directory(b"/a"),
        Entry::File(b"/a-b", b""),
        Entry::File(b"/a/b", b""),
    ],
    &[Entry::Directory(b"/"), Entry::Directory(b"/xpackage.json")],
];

// No entry; contents elsewhere than in a manifest, alone and beside a fault of order or a directory of that name.
const BAD_SIZES: &[&[Entry<'static>]] = &[
    &[],
    &[Entry::Directory(b"/"), Entry::File(b"/a", b"x")],
    &[Entry::Directory(b"/"), Entry::File(b"/xpackage.json", b"x")],
    &[
        Entry::Directory(b"/"),
        Entry::File(b"/b", b""),
        Entry::File(b"/a", b"x"),
    ],
    &[
        Entry::Directory(b"/"),
        Entry::File(b"/a", b"x"),
        Entry::Directory(b"/package.json"),
    ],
];

// The first entry; empty, relative, "/" at the end or twice; dots; byte 0; not UTF-8.
const BAD_PATHS: &[&[Entry<'static>]] = &[
    &[Entry::Directory(b"/a")],
    &[Entry::File(b"/", b"")],
    &[Entry::File(b"", b"")],
    &[Entry::Directory(b"/"), Entry::File(b"", b"")],
    &[Entry::Directory(b"/"), Entry::File(b"a", b"")],
    &[
        Entry::Directory(b"/"),
        Entry::Directory(b"/a"),
        Entry::Directory(b"/a/"),
    ],
    &[Entry::Directory(b"/"), Entry::File(b"//a", b"")],
    &[
        Entry::Directory(b"/"),
        Entry::Directory(b"/a"),
        Entry::File(b"/a//b", b""),
    ],
    &[Entry::Directory(b"/"), Entry::Directory(b"/.")],
    &[Entry::Directory(b"/"), Entry::Directory(b"/..")],
    &[
        Entry::Directory(b"/"),
        Entry::Directory(b"/a"),
        Entry::File(b"/a/.", b""),
    ],
    &[
        Entry::Directory(b"/"),
        Entry::Directory(b"/a"),
        Entry::Directory(b"/a/.."),
    ],
    &[Entry::Directory(b"/"), Entry::File(b"/a\x00b", b"")],
    &[Entry::Directory(b"/"), Entry::File(b"/\xFF", b"")],
    &[Entry::Directory(b"/"), Entry::File(b"/a\xC3", b"")],
    &[Entry::Directory(b"/"), Entry::File(b"/\xED\xA0\x80", b"")],
];

// Order; twice the same; no parent; a file as parent; all beside a directory named package.json.
const BAD_ORDER: &[&[Entry<'static>]] = &[
    &[
        Entry::Directory(b"/"),
        Entry::File(b"/b", b""),
        Entry::File(b"/a", b""),
    ],
    &[
        Entry::Directory(b"/"),
        Entry::File(b"/a", b""),
        Entry::File(b"/a", b""),
    ],
    &[Entry::Directory(b"/"), Entry::Directory(b"/")],
    &[
        Entry::Directory(b"/"),
        Entry::Directory(b"/ab"),
        Entry::File(b"/a/c", b""),
    ],
    &[Entry::Directory(b"/"), Entry::File(b"/a/b", b"")],
    &[
        Entry::Directory(b"/"),
        Entry::Directory(b"/a"),
        Entry::Directory(b"/a/b"),
        Entry::File(b"/ab", b""),
        Entry::File(b"/b/c", b""),
    ],
    &[
        Entry::Directory(b"/"),
        Entry::Directory(b"/a"),
        Entry::File(b"/a/b/c", b""),
    ],
    &[
        Entry::Directory(b"/"),
        Entry::File(b"/a", b""),
        Entry::File(b"/a/b", b""),
    ],
    &[
        Entry::Directory(b"/"),
        Entry::Directory(b"/a"),
        Entry::File(b"/a-b", b""),
        Entry::File(b"/a-b/c", b""),
    ],
    &[
        Entry::Directory(b"/"),
        Entry::Directory(b"/package.json"),
        Entry::Directory(b"/a"),
    ],
];

const MANIFEST_DIRECTORIES: &[&[Entry<'static>]] = &[
    &[Entry::Directory(b"/"), Entry::Directory(b"/package.json")],
    &[
        Entry::Directory(b"/"),
        Entry::Directory(b"/a"),
        Entry::Directory(b"/a/package.json"),
    ],
    &[
        Entry::Directory(b"/"),
        Entry::Directory(b"/package.json"),
        Entry::File(b"/package.json/a", b""),
    ],
];

const SEARCHED: &[Sought] = &[
    Sought::Directory(b"/"),
    Sought::Directory(b"/p"),
    Sought::Absent(b"/q"),
    Sought::Absent(b""),
    Sought::Absent(b"/p/"),
    Sought::Absent(b"/p/node_module"),
    Sought::Directory(b"/p/node_modules"),
    Sought::Directory(b"/p/node_modules/mat/lib"),
    Sought::File(b"/p/node_modules/mat/lib/steel.js", b""),
    Sought::File(
        b"/p/node_modules/mat/package.json",
        b"{\"exports\":{\"./*\":\"./lib/*.js\"}}",
    ),
    Sought::Absent(b"/p/package.json"),
];

// Where bytes are missing, an entry ends where they end, and missing lengths count as zeros.
const CUT_IN_CONTENTS: &[Sought] = &[
    Sought::Directory(b"/p"),
    Sought::File(
        b"/p/node_modules/mat/package.json",
        b"{\"exports\":{\"./*\":\"./l",
    ),
    Sought::Absent(b"/q"),
    Sought::Absent(b""),
];

const CUT_IN_PATH: &[Sought] = &[
    Sought::Directory(b"/p"),
    Sought::File(b"/p/node_modules/mat/pack", b""),
    Sought::Absent(b"/p/node_modules/mat/package.json"),
];

// The arrays: a first mark that is whole, one byte short, and missing.
const CUT_IN_MARKS: &[Sought] = &[
    Sought::Directory(b""),
    Sought::Absent(b"/"),
    Sought::Absent(b"/p"),
];

const CUT_IN_MARK: &[Sought] = &[Sought::File(b"", b""), Sought::Absent(b"/")];

const CUT_IN_LENGTHS: &[Sought] = &[
    Sought::File(b"", b""),
    Sought::Absent(b"/"),
    Sought::Absent(b"/p"),
];

// Paths that do not rise: the first path not below the one sought decides.
const FALLING: &[Entry<'static>] = &[
    Entry::Directory(b"/"),
    Entry::File(b"/c", b""),
    Entry::File(b"/b", b""),
    Entry::File(b"/a", b""),
];

const FALLING_SEARCHED: &[Sought] = &[
    Sought::Directory(b"/"),
    Sought::File(b"/c", b""),
    Sought::Absent(b"/b"),
    Sought::Absent(b"/a"),
    Sought::Absent(b"/d"),
];

const EQUAL_PATHS: &[Entry<'static>] = &[
    Entry::Directory(b"/"),
    Entry::File(b"/a", b"x"),
    Entry::File(b"/a", b"y"),
    Entry::Directory(b"/b"),
    Entry::File(b"/b", b"z"),
    Entry::File(b"/a", b"x"),
];

const EQUAL_PATHS_SEARCHED: &[Sought] = &[
    Sought::File(b"/a", b"x"),
    Sought::Directory(b"/b"),
    Sought::Absent(b"/c"),
];

const BEGINNINGS: &[Entry<'static>] = &[
    Entry::File(b"/ab", b"x"),
    Entry::File(b"/a", b"y"),
    Entry::File(b"/abc", b"z"),
];

const BEGINNINGS_SEARCHED: &[Sought] = &[
    Sought::File(b"/ab", b"x"),
    Sought::Absent(b"/a"),
    Sought::File(b"/abc", b"z"),
    Sought::Absent(b"/abcd"),
    Sought::Absent(b"/"),
];

const EMPTY_FIRST: &[Entry<'static>] = &[
    Entry::File(b"", b"x"),
    Entry::File(b"", b"y"),
    Entry::Directory(b"/"),
];

const EMPTY_FIRST_SEARCHED: &[Sought] = &[Sought::File(b"", b"x"), Sought::Directory(b"/")];

const EMPTY_LAST: &[Entry<'static>] = &[Entry::Directory(b"/"), Entry::File(b"", b"x")];

const EMPTY_LAST_SEARCHED: &[Sought] = &[Sought::Absent(b""), Sought::Directory(b"/")];

// Over 32 bytes in common.
const FAR_IN_COMMON: &[Entry<'static>] = &[
    Entry::File(b"/p/node_modules/element-beam/lib/b.js", b"x"),
    Entry::File(b"/p/node_modules/element-beam/lib/a.js", b"y"),
    Entry::File(b"/p/node_modules/element-beam/lib/c.js", b"z"),
];

const FAR_IN_COMMON_SEARCHED: &[Sought] = &[
    Sought::File(b"/p/node_modules/element-beam/lib/b.js", b"x"),
    Sought::Absent(b"/p/node_modules/element-beam/lib/a.js"),
    Sought::File(b"/p/node_modules/element-beam/lib/c.js", b"z"),
    Sought::Absent(b"/p/node_modules/element-beam/lib"),
];

// Two files with contents between two without, and where the contents of each start and end.
const FILES: &[Entry<'static>] = &[
    Entry::Directory(b"/"),
    Entry::File(b"/a", b""),
    Entry::File(b"/b", b"xy"),
    Entry::File(b"/c", b"z"),
    Entry::File(b"/d", b""),
];

const PLACES: &[(Text, usize, usize)] = &[
    (b"/a", 51, 51),
    (b"/b", 53, 55),
    (b"/c", 57, 58),
    (b"/d", 60, 60),
];

const NO_BYTES: &[Sought] = &[Sought::Absent(b"/"), Sought::Absent(b"")];

const ONE_BYTE: &[Sought] = &[Sought::Absent(b"/"), Sought::File(b"", b"")];

// As many bytes has the longest listing here, and as many have room for those with a few entries.
const MOST: usize = 65537;

const FEW: usize = 1024;

// A length as a number of a listing; no text here is longer.
fn number(length: usize) -> u32 {
    u32::try_from(length).unwrap_or(u32::MAX)
}

// A buffer that is being written, as far as it reaches.
#[derive(Drop)]
struct Writer<'a> {
    room: &'a mut [u8],
    at: usize,
}

impl<'a> Writer<'a> {
    fn put(&mut self, bytes: &[u8]) {
        text::copy_at(self.room, self.at, bytes);
        self.at = self.at.saturating_add(bytes.len());
    }

    fn put_number(&mut self, number: u32) {
        self.put(&number.to_le_bytes());
    }

    fn written(self) -> &'a [u8] {
        let Writer { room, at } = self;
        text::part(room, 0, at)
    }
}

// The listing of some entries, in a buffer: the two sizes, the arrays, the texts.
fn listing_of<'a>(entries: &[Entry<'_>], room: &'a mut [u8]) -> &'a [u8] {
    let mut texts: usize = 0;
    for entry in entries {
        texts = texts.saturating_add(entry.path().len());
        texts = texts.saturating_add(entry.contents().len());
    }
    let mut writer = Writer { room, at: 0 };
    writer.put_number(number(entries.len()));
    writer.put_number(number(texts));
    for entry in entries {
        writer.put_number(number(entry.path().len()));
    }
    for entry in entries {
        writer.put_number(entry.mark());
    }
    for entry in entries {
        writer.put(entry.path());
        writer.put(entry.contents());
    }
    writer.written()
}

// The group's name, and how many of its rows are as expected; or after how many one was not.
fn report<T, F: Fn(&T) -> bool>(
    rt: &impl Print,
    name: &str,
    rows: &[T],
    is_expected: F,
) -> io::Result<()>
    requires { F.IsAlwaysCallable is_expected }
{
    for (n, row) in rows.iter().enumerate() {
        if !is_expected(row) {
            return println!(rt; "{name}: not as expected after {n}");
        }
    }
    println!(rt; "{name}: {} as expected", rows.len())
}

fn report_checks(
    rt: &impl Print,
    name: &str,
    rows: &[&[Entry<'_>]],
    wanted: Result<(), Refusal>,
) -> io::Result<()> {
    report(rt, name, rows, |entries| {
        listing_check::check(listing_of(entries, &mut [0; FEW])) == wanted
    })
}

// A good listing, and what is left of it cut off behind each of its bytes.
fn report_cuts(rt: &impl Print) -> io::Result<()> {
    let mut room = [0; FEW];
    let listing = listing_of(PRINTED, &mut room);
    let mut lengths = [0; FEW];
    for (n, length) in lengths.iter_mut().enumerate() {
        *length = n;
    }
    let whole = listing_check::check(listing);
    report(rt, "cut off", &lengths[..listing.len().min(FEW)], |n| {
        whole == Ok(()) && listing_check::check(text::part(listing, 0, *n)) == Err(Refusal::Sizes)
    })
}

fn is_told(change: &Change, wanted: Result<(), Refusal>) -> bool {
    let mut room = [0; FEW];
    let len = listing_of(ALTERED, &mut room).len();
    let len = match *change {
        Change::Number(at, x) => {
            text::copy_at(&mut room, at, &x.to_le_bytes());
            len
        }
        Change::OneMore => len.saturating_add(1),
        Change::OneLess => len.saturating_sub(1),
    };
    listing_check::check(text::part(&room, 0, len)) == wanted
}

// The root and a file whose path has so many bytes.
fn of_long_path(size: usize, room: &mut [u8]) -> &[u8] {
    let mut path = [b'a'; FEW + 1];
    path[0] = b'/';
    let entries = [
        Entry::Directory(b"/"),
        Entry::File(text::part(&path, 0, size), b""),
    ];
    listing_of(&entries, room)
}

// The root, and below it directories, each in the one before.
fn of_nested(depth: usize, room: &mut [u8]) -> &[u8] {
    let path = [*b"/a"; 64];
    let path = path.as_flattened();
    let entries: [Entry<'_>; 64] = array::from_fn(|i| Entry::Directory(nested(path, i)));
    listing_of(&entries[..depth.min(63) + 1], room)
}

// A path with so many of a path's components of two bytes; with none, the root.
fn nested(path: &[u8], depth: usize) -> &[u8] {
    text::part(path, 0, depth.saturating_mul(2).max(1))
}

// The root and files, so many entries in all. A name is a number with two digits of base 64.
fn of_files(entries: usize, room: &mut [u8]) -> &[u8] {
    let digit = |n: usize| b'0' + (n % 64) as u8;
    let files = entries.saturating_sub(1);
    let mut writer = Writer { room, at: 0 };
    writer.put_number(number(entries));
    writer.put_number(number(files.saturating_mul(3).saturating_add(1)));
    writer.put_number(1);
    for _ in 0..files {
        writer.put_number(3);
    }
    writer.put_number(u32::MAX);
    for _ in 0..files {
        writer.put_number(0);
    }
    writer.put(b"/");
    for i in 1..entries {
        writer.put(&[b'/', digit(i / 64), digit(i)]);
    }
    writer.written()
}

// The root and a manifest of spaces, so many bytes in all, in a buffer of spaces.
fn of_whole(size: usize, room: &mut [u8]) -> &[u8] {
    let contents = size.saturating_sub(38);
    let mut writer = Writer { room, at: 0 };
    for n in [
        2,
        number(contents.saturating_add(14)),
        1,
        13,
        u32::MAX,
        number(contents),
    ] {
        writer.put_number(n);
    }
    writer.put(b"/");
    writer.put(b"/package.json");
    writer.at = size;
    writer.written()
}

fn sized<'a>(size: &Size, room: &'a mut [u8]) -> &'a [u8] {
    match *size {
        Size::Path(n) => of_long_path(n, room),
        Size::Depth(n) => of_nested(n, room),
        Size::Entries(n) => of_files(n, room),
        Size::Whole(n) => of_whole(n, room),
    }
}

fn is_found(listing: &[u8], sought: &Sought) -> bool {
    match *sought {
        Sought::Absent(path) => matches!(listing::search(listing, path), Found::Absent),
        Sought::Directory(path) => matches!(listing::search(listing, path), Found::Directory),
        Sought::File(path, contents) => match listing::search(listing, path) {
            Found::File { start, end } => listing::contents(listing, start, end) == contents,
            _ => false,
        },
    }
}

fn report_found(rt: &impl Print, name: &str, listing: &[u8], rows: &[Sought]) -> io::Result<()> {
    report(rt, name, rows, |sought| is_found(listing, sought))
}

// In what is left of a listing without its last bytes.
fn report_searches(
    rt: &impl Print,
    name: &str,
    entries: &[Entry<'_>],
    less: usize,
    rows: &[Sought],
) -> io::Result<()> {
    let mut room = [0; FEW];
    let listing = listing_of(entries, &mut room);
    let rest = text::part(listing, 0, listing.len().saturating_sub(less));
    report_found(rt, name, rest, rows)
}

// Whether a file's contents stand there.
fn stands(listing: &[u8], path: &[u8], wanted_start: usize, wanted_end: usize) -> bool {
    match listing::search(listing, path) {
        Found::File { start, end } => start == wanted_start && end == wanted_end,
        _ => false,
    }
}

fn checks(rt: &impl Print) -> io::Result<()> {
    report_cuts(rt)?;
    report(
        rt,
        "sizes",
        CHANGES,
        |(change, wanted)| is_told(change, *wanted),
    )?;
    report(rt, "limits", LIMITS, |(size, wanted)| {
        listing_check::check(sized(size, &mut [b' '; MOST])) == *wanted
    })?;
    report_checks(rt, "accepted", ACCEPTED, Ok(()))?;
    report_checks(rt, "30", BAD_SIZES, Err(Refusal::Sizes))?;
    report_checks(rt, "31, paths", BAD_PATHS, Err(Refusal::Order))?;
    report_checks(rt, "31, order", BAD_ORDER, Err(Refusal::Order))?;
    report_checks(
        rt,
        "32",
        MANIFEST_DIRECTORIES,
        Err(Refusal::ManifestDirectory),
    )
}

fn searches(rt: &impl Print) -> io::Result<()> {
    report_searches(rt, "search", PRINTED, 0, SEARCHED)?;
    report_searches(rt, "search, cut in contents", PRINTED, 10, CUT_IN_CONTENTS)?;
    report_searches(rt, "search, cut in a path", PRINTED, 40, CUT_IN_PATH)?;
    report_searches(rt, "search, cut in marks", PRINTED, 180, CUT_IN_MARKS)?;
    report_searches(rt, "search, cut in a mark", PRINTED, 181, CUT_IN_MARK)?;
    report_searches(rt, "search, cut in lengths", PRINTED, 190, CUT_IN_LENGTHS)?;
    report_searches(rt, "search, falling", FALLING, 0, FALLING_SEARCHED)?;
    report_searches(
        rt,
        "search, equal paths",
        EQUAL_PATHS,
        0,
        EQUAL_PATHS_SEARCHED,
    )?;
    report_searches(rt, "search, beginnings", BEGINNINGS, 0, BEGINNINGS_SEARCHED)?;
    report_searches(
        rt,
        "search, empty paths first",
        EMPTY_FIRST,
        0,
        EMPTY_FIRST_SEARCHED,
    )?;
    report_searches(
        rt,
        "search, an empty path last",
        EMPTY_LAST,
        0,
        EMPTY_LAST_SEARCHED,
    )?;
    report_searches(
        rt,
        "search, far in common",
        FAR_IN_COMMON,
        0,
        FAR_IN_COMMON_SEARCHED,
    )
}

fn places(rt: &impl Print) -> io::Result<()> {
    let mut room = [0; FEW];
    let listing = listing_of(FILES, &mut room);
    report(rt, "search, places", PLACES, |(path, start, end)| {
        stands(listing, path, *start, *end)
    })
}

fn main(rt: HostRuntime) -> io::Result<()> {
    checks(&rt)?;
    searches(&rt)?;
    places(&rt)?;
    report_found(&rt, "search, no bytes", b"", NO_BYTES)?;
    report_found(&rt, "search, one byte", b"\x01", ONE_BYTE)
}
