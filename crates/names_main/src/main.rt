// Runs paths, specifiers and package names with known answers through the functions of `path`, `specifier` and `package_name`, and prints for
// each group how many are as expected.
#![tactic(auto)]

use path::PathBuf;
use specifier::{Path, Specifier, SpecifierError};
use std::io;

type Text = &'static [u8];

// A function of `path` with its texts, and behind them what it gives.
enum PathRow {
    IsInvalidExportsTarget(Text, bool),
    NormalizeRelative(Text, Text),
    NormalizeWith(Text, Text, Text),
    Push(Text, Text, Text),
    Pop(Text, Text),
    Append(Text, Text, Text),
    AddExtension(Text, Text, Text),
    AddNameAndExtension(Text, Text, Text, Text),
    ManifestPath(Text, Text),
    Parent(Text, Text),
    NameOf(Text, Text),
}

// The examples of path.rs.
const PATH_RS: &[PathRow] = &[
    PathRow::IsInvalidExportsTarget(b"../a.js", true),
    PathRow::IsInvalidExportsTarget(b"../", true),
    PathRow::IsInvalidExportsTarget(b"./a/b/../../../c.js", true),
    PathRow::IsInvalidExportsTarget(b"./a/b/../../../", true),
    PathRow::IsInvalidExportsTarget(b"./../../c.js", true),
    PathRow::IsInvalidExportsTarget(b"./../../", true),
    PathRow::IsInvalidExportsTarget(b"./a/../b/../../c.js", true),
    PathRow::IsInvalidExportsTarget(b"./a/../b/../../", true),
    PathRow::IsInvalidExportsTarget(b"./././../", true),
    PathRow::IsInvalidExportsTarget(b"C:", false),
    PathRow::IsInvalidExportsTarget(b"/", false),
    PathRow::NormalizeRelative(b"foo/../../foo/", b"../foo"),
    PathRow::NormalizeRelative(b"foo/.././foo/", b"foo"),
    PathRow::NormalizeRelative(b"foo../../..", b".."),
    PathRow::NormalizeRelative(b"jest-runner-../../", b""),
];

const ROWS_01: &[PathRow] = &[
    PathRow::NormalizeRelative(b"a/../../b", b"../b"),
    PathRow::NormalizeRelative(b"a/../../../b", b"b"),
    PathRow::IsInvalidExportsTarget(b"./a/./b.js", false),
    PathRow::IsInvalidExportsTarget(b"./a/../b", true),
    PathRow::IsInvalidExportsTarget(b"./NODE_MODULES/a", true),
];

const COMPONENTS: &[PathRow] = &[
    PathRow::IsInvalidExportsTarget(b"", false),
    PathRow::IsInvalidExportsTarget(b".", false),
    PathRow::IsInvalidExportsTarget(b"..", true),
    PathRow::IsInvalidExportsTarget(b"./a..", false),
    PathRow::IsInvalidExportsTarget(b"./.../b", false),
    PathRow::IsInvalidExportsTarget(b"node_modules", true),
    PathRow::IsInvalidExportsTarget(b"./a/Node_Modules", true),
    PathRow::IsInvalidExportsTarget(b"./node_modules_", false),
    PathRow::IsInvalidExportsTarget(b"/node_modules", true),
    PathRow::IsInvalidExportsTarget(b"./a//b", false),
    PathRow::NormalizeRelative(b"", b""),
    PathRow::NormalizeRelative(b".", b""),
    PathRow::NormalizeRelative(b"./", b""),
    PathRow::NormalizeRelative(b"/", b"/"),
    PathRow::NormalizeRelative(b"//", b"/"),
    PathRow::NormalizeRelative(b"/..", b"/.."),
    PathRow::NormalizeRelative(b"/a/..", b"/"),
    PathRow::NormalizeRelative(b"/../..", b"/"),
    PathRow::NormalizeRelative(b"../..", b""),
    PathRow::NormalizeRelative(b"../../..", b".."),
    PathRow::NormalizeRelative(b"./a/./b/", b"a/b"),
    PathRow::NormalizeRelative(b"a//b", b"a/b"),
    PathRow::NormalizeRelative(b"/./a", b"/a"),
];

const NORMALIZE_WITH: &[PathRow] = &[
    PathRow::NormalizeWith(b"/a", b"./b", b"/a/b"),
    PathRow::NormalizeWith(b"/a", b"b", b"/a/b"),
    PathRow::NormalizeWith(b"/a/b", b"../c", b"/a/c"),
    PathRow::NormalizeWith(b"/a", b"../../b", b"/b"),
    PathRow::NormalizeWith(b"/", b"..", b"/"),
    PathRow::NormalizeWith(b"/", b"a", b"/a"),
    PathRow::NormalizeWith(b"/", b"./a/..", b"/"),
    PathRow::NormalizeWith(b"/a", b".", b"/a"),
    PathRow::NormalizeWith(b"/a", b"./", b"/a"),
    PathRow::NormalizeWith(b"/a", b"b//c/", b"/a/b/c"),
    PathRow::NormalizeWith(b"/a", b"b/./c", b"/a/b/c"),
    PathRow::NormalizeWith(b"/a", b".b", b"/a/.b"),
    PathRow::NormalizeWith(b"/a", b"..b", b"/a/..b"),
    PathRow::NormalizeWith(b"/a", b"/x/../y", b"/x/../y"),
    PathRow::NormalizeWith(b"/a", b"", b""),
    PathRow::NormalizeWith(b"", b"a", b"a"),
    PathRow::NormalizeWith(b"a", b"..", b""),
    PathRow::NormalizeWith(b"a", b"../b", b"b"),
];

const METHODS: &[PathRow] = &[
    PathRow::Push(b"", b"a", b"a"),
    PathRow::Push(b"/", b"a", b"/a"),
    PathRow::Push(b"/a", b"b", b"/a/b"),
    PathRow::Push(b"/a/", b"b", b"/a/b"),
    PathRow::Push(b"/a", b"", b"/a/"),
    PathRow::Pop(b"/a/b", b"/a"),
    PathRow::Pop(b"/a", b"/"),
    PathRow::Pop(b"/", b"/"),
    PathRow::Pop(b"a", b""),
    PathRow::Pop(b"a/b", b"a"),
    PathRow::Pop(b"", b""),
    PathRow::Append(b"/a", b".js", b"/a.js"),
    PathRow::Append(b"", b"", b""),
    PathRow::AddExtension(b"/a", b".js", b"/a.js"),
    PathRow::AddExtension(b"", b"", b""),
    PathRow::AddNameAndExtension(b"/a", b"index", b".js", b"/a/index.js"),
    PathRow::AddNameAndExtension(b"/", b"index", b".js", b"//index.js"),
    PathRow::ManifestPath(b"/a", b"/a/package.json"),
    PathRow::ManifestPath(b"/", b"/package.json"),
    PathRow::Parent(b"/a/b", b"/a"),
    PathRow::Parent(b"/a", b"/"),
    PathRow::Parent(b"/", b"/"),
    PathRow::Parent(b"a", b""),
    PathRow::Parent(b"", b""),
    PathRow::NameOf(b"/a/b", b"b"),
    PathRow::NameOf(b"/a", b"a"),
    PathRow::NameOf(b"a", b"a"),
    PathRow::NameOf(b"/", b""),
];

// A specifier, its package name, and the subpath.
const SPLIT: &[(Text, Text, Text)] = &[
    (b"", b"", b""),
    (b"a", b"a", b""),
    (b"a/", b"a", b"/"),
    (b"a/b/c", b"a", b"/b/c"),
    (b"/a", b"", b"/a"),
    (b"a\\b", b"a\\b", b""),
    (b"@a/b/c", b"@a/b", b"/c"),
    (b"@a", b"@a", b""),
    (b"@", b"@", b""),
    (b"@/", b"@/", b""),
    (b"@a/b", b"@a/b", b""),
    (b"@a//b", b"@a/", b"/b"),
];

// A subpath, and the same with a dot in front.
const DOTTED: &[(Text, Text)] = &[
    (b"", b"."),
    (b"/c", b"./c"),
    (b"./c", b"./c"),
    (b"\\c", b".\\c"),
    (b"/345678", b"./345678"),
    (b"/3456789", b"./3456789"),
];

// A specifier, a package name, and what is left behind the name, if it is in front.
const STRIPPED: &[(Text, Text, Option<Text>)] = &[
    (b"a", b"a", Some(b"")),
    (b"a/b", b"a", Some(b"/b")),
    (b"a\\b", b"a", Some(b"\\b")),
    (b"@a/b/c", b"@a/b", Some(b"/c")),
    (b"/b", b"", Some(b"/b")),
    (b"ab", b"a", None),
    (b"a", b"ab", None),
    (b"b/a", b"a", None),
    (b"a", b"", None),
];

// A specifier, and whether a question may have it.
const QUESTIONS: &[(Text, bool)] = &[
    (b"a", true),
    (b"@", true),
    (b"@a/b", true),
    (b"a/", true),
    (b"\\", true),
    (b"...", true),
    (b".a/b", true),
    (b"a/../../b", true),
    (b"\xC3\xA9#?", true),
    (b"", false),
    (b".", false),
    (b"..", false),
    (b"./a", false),
    (b"../a", false),
    (b"/a", false),
    (b"#a", false),
    (b"a\x00b", false),
    (b"a\xC3", false),
];

// A specifier, the same normalised, and whether it leaves the directory of the first walk.
const CLIMBS: &[(Text, Text, bool)] = &[
    (b"a/../../b", b"../b", true),
    (b"a/../../../b", b"b", false),
    (b"a/../../b/", b"../b/", true),
    (b"a/../..", b"..", true),
    (b"a/../b", b"b", false),
    (b"a/b/../../c", b"c", false),
    (b"@a/b/../../../c", b"../c", true),
];

// A specifier with its path, query and fragment.
type Parsed = (Text, Text, Text, Text);

const PARSED: &[Parsed] = &[
    (b"./a", b"./a", b"", b""),
    (b"./a?b", b"./a", b"?b", b""),
    (b"./a#b", b"./a", b"", b"#b"),
    (b"./a?b#c", b"./a", b"?b", b"#c"),
    (b"\xC3\xA9?\xC3\xA9", b"\xC3\xA9", b"?\xC3\xA9", b""),
];

const MARKS: &[Parsed] = &[
    (b"./a#b?c", b"./a", b"", b"#b?c"),
    (b"./a?b?c#d#e", b"./a", b"?b?c", b"#d#e"),
    (b"#a#b", b"#a", b"", b"#b"),
    (b"#", b"#", b"", b""),
    (b"./?#", b"./", b"?", b"#"),
];

const ESCAPED: &[Parsed] = &[
    (b"./x\x00#y", b"./x#y", b"", b""),
    (b"\x00#", b"#", b"", b""),
    (b"./a\x00#b#c", b"./a#b", b"", b"#c"),
    (b"./\xC3\xA9\x00#", b"./\xC3\x83\xC2\xA9#", b"", b""),
];

const ESCAPE_NOTHING: &[Parsed] = &[
    (b"./a?b\x00#c", b"./a", b"?b\x00#c", b""),
    (b"./a\x00b", b"./a\x00b", b"", b""),
    (b"./a\x00?b", b"./a\x00", b"?b", b""),
    (b"\xC3\xA9?\x00#", b"\xC3\x83\xC2\xA9", b"?\x00#", b""),
];

// Specifiers without a path.
const EMPTY: &[Text] = &[b"", b"?", b"?a#b"];

// The group's name, and how many of its rows are as expected; or how many are before the first that is not.
fn report<T, F: Fn(&T) -> bool>(
    rt: &impl Print,
    name: &str,
    rows: &[T],
    is_expected: F,
) -> io::Result<()>
    requires { F.IsAlwaysCallable is_expected }
{
    match rows.iter().position(|row| !is_expected(row)) {
        None => println!(rt; "{name}: {} as expected", rows.len()),
        Some(n) => println!(rt; "{name}: not as expected after row {n}"),
    }
}

// A path that is not over-long and has this text.
fn is(p: PathBuf, wanted: &[u8]) -> bool {
    p.as_slice() == Some(wanted)
}

// As a path, and into a buffer of eight bytes.
fn is_dotted(subpath: &[u8], wanted: &[u8]) -> bool {
    let mut buffer = [0u8; 8];
    let n = package_name::dot_subpath(subpath, &mut buffer);
    is(package_name::dotted(subpath), wanted)
        && n == wanted.len()
        && path::first(&buffer, n) == path::first(wanted, 8)
}

fn is_path_row(row: &PathRow) -> bool {
    match *row {
        PathRow::IsInvalidExportsTarget(target, wanted) => path::is_invalid_exports_target(target)
            == wanted,
        PathRow::NormalizeRelative(text, wanted) => is(path::normalize_relative(text), wanted),
        PathRow::NormalizeWith(base, subpath, wanted) => is(
            path::normalize_with(base, subpath),
            wanted,
        ),
        PathRow::Push(text, part, wanted) => is(PathBuf::from(text).push(part), wanted),
        PathRow::Pop(text, wanted) => is(PathBuf::from(text).pop(), wanted),
        PathRow::Append(text, extension, wanted) => is(
            PathBuf::from(text).append(extension),
            wanted,
        ),
        PathRow::AddExtension(text, extension, wanted) => is(
            path::add_extension(text, extension),
            wanted,
        ),
        PathRow::AddNameAndExtension(text, name, extension, wanted) => {
            is(path::add_name_and_extension(text, name, extension), wanted)
        }
        PathRow::ManifestPath(directory, wanted) => is(path::manifest_path(directory), wanted),
        PathRow::Parent(text, wanted) => path::parent(text) == wanted,
        PathRow::NameOf(text, wanted) => path::name_of(text) == wanted,
    }
}

fn is_split(specifier: &[u8], name: &[u8], subpath: &[u8]) -> bool {
    package_name::package_name(specifier) == name
        && package_name::package_subpath(specifier) == subpath
}

fn stripped<'a>(s: &'a [u8], name: &[u8]) -> Option<&'a [u8]> {
    let at = package_name::strip_package_name(s, name)?;
    Some(specifier::tail(s, at))
}

fn is_climb(specifier: &[u8], wanted: &[u8], is_up: bool) -> bool {
    let normal = package_name::normalized(specifier);
    let Some(text) = normal.as_slice() else {
        return false;
    };
    let climbs = package_name::may_climb(specifier) && package_name::climbs(text);
    text == wanted && climbs == is_up
}

fn is_parsed(s: &[u8], path: &[u8], query: &[u8], fragment: &[u8]) -> bool {
    let Ok(parsed) = Specifier::parse(s) else {
        return false;
    };
    let same_path = match parsed.path {
        Path::Plain(text) => text == path,
        Path::Escaped(text) => is(specifier::unescaped(text), path),
    };
    same_path && parsed.query == query && parsed.fragment == fragment
}

// The path of a specifier, where nothing in it is escaped.
fn plain_path(s: &[u8]) -> Option<&[u8]> {
    match Specifier::parse(s).ok()?.path {
        Path::Plain(text) => Some(text),
        Path::Escaped(_) => None,
    }
}

fn is_empty(s: &[u8]) -> bool {
    Specifier::parse(s).err() == Some(SpecifierError::Empty)
}

fn has_length(p: PathBuf, n: usize) -> bool {
    p.as_slice().map(|text| text.len()) == Some(n)
}

// 2,048 bytes fit, 2,049 do not, in every function that makes a path longer.
fn limits(a: &[u8]) -> [bool; 10] {
    let base = path::first(a, 2040);
    [
        has_length(PathBuf::from(path::first(a, 2048)), 2048),
        PathBuf::from(path::first(a, 2049)).over_long(),
        has_length(PathBuf::from(base).push(path::first(a, 7)), 2048),
        PathBuf::from(base).push(path::first(a, 8)).over_long(),
        has_length(PathBuf::from(base).append(path::first(a, 8)), 2048),
        PathBuf::from(base).append(path::first(a, 9)).over_long(),
        has_length(path::add_name_and_extension(base, b"inde", b".js"), 2048),
        path::add_name_and_extension(base, b"index", b".js").over_long(),
        has_length(path::normalize_with(base, b"./aaaaaaa"), 2048),
        path::normalize_with(base, b"./aaaaaaaa").over_long(),
    ]
}

// The base counts, each component counts, and an absolute subpath counts alone.
fn more_limits(a: &[u8]) -> [bool; 8] {
    let base = path::first(a, 2040);
    [
        path::normalize_with(base, b"aaaaaaaa/..").over_long(),
        has_length(path::normalize_with(base, b"aaaaaaa/../b"), 2042),
        has_length(path::normalize_with(path::first(a, 2048), b"./."), 2048),
        path::normalize_with(path::first(a, 2049), b"..").over_long(),
        has_length(path::normalize_with(path::first(a, 2049), b"/b"), 2),
        path::normalize_with(b"/", a).over_long(),
        has_length(path::normalize_relative(path::first(a, 2048)), 2048),
        path::normalize_relative(path::first(a, 2049)).over_long(),
    ]
}

// What was over-long stays so.
fn stays_over(a: &[u8]) -> [bool; 7] {
    [
        PathBuf::from(a).push(b"a").over_long(),
        PathBuf::from(a).push(b"").over_long(),
        PathBuf::from(a).pop().over_long(),
        PathBuf::from(a).append(b"").over_long(),
        path::add_name_and_extension(a, b"", b"").over_long(),
        path::add_extension(a, b"").over_long(),
        path::manifest_path(a).over_long(),
    ]
}

// 512 bytes of a question's specifier are within the limit, 513 over it. Where nothing is escaped, the path is a part of the specifier, and
// over-long where that is.
fn specifier_limits(a: &[u8]) -> [bool; 4] {
    let path = plain_path(a);
    [
        package_name::check(path::first(a, 512)),
        !package_name::check(path::first(a, 513)),
        path.is_some(),
        path.is_some_and(|text| text.len() == 2049),
    ]
}

// A path of 2,048 bytes fits, of one more does not; so does one of 1,023 characters of two bytes and a "#".
fn long_paths(a: &[u8]) -> [bool; 4] {
    let mut wide = [0xE9u8; 1027];
    wide[1023] = 0;
    wide[1024] = b'#';
    [
        has_length(specifier::unescaped(path::first(a, 2048)), 2048),
        specifier::unescaped(a).over_long(),
        has_length(specifier::unescaped(&wide[..1025]), 2047),
        specifier::unescaped(&wide).over_long(),
    ]
}

// A specifier of 2,048 bytes is normalised, with a "/" at its end or without; one of more is over-long.
fn long_climbs(a: &[u8]) -> [bool; 3] {
    let mut slashed = [b'a'; 2048];
    slashed[2047] = b'/';
    [
        has_length(package_name::normalized(path::first(a, 2048)), 2048),
        has_length(package_name::normalized(&slashed), 2048),
        package_name::normalized(a).over_long(),
    ]
}

fn report_paths(rt: &impl Print, name: &str, rows: &[PathRow]) -> io::Result<()> {
    report(rt, name, rows, is_path_row)
}

fn paths(rt: &impl Print) -> io::Result<()> {
    report_paths(rt, "path.rs", PATH_RS)?;
    report_paths(rt, "01", ROWS_01)?;
    report_paths(rt, "components", COMPONENTS)?;
    report_paths(rt, "normalize_with", NORMALIZE_WITH)?;
    report_paths(rt, "methods", METHODS)
}

fn package_names(rt: &impl Print) -> io::Result<()> {
    report(
        rt,
        "name and subpath",
        SPLIT,
        |(s, name, subpath)| is_split(s, name, subpath),
    )?;
    report(
        rt,
        "dotted subpath",
        DOTTED,
        |(subpath, wanted)| is_dotted(subpath, wanted),
    )?;
    report(
        rt,
        "package name stripped",
        STRIPPED,
        |(s, name, wanted)| stripped(s, name) == *wanted,
    )?;
    report(
        rt,
        "question's specifier",
        QUESTIONS,
        |(s, wanted)| package_name::check(s) == *wanted,
    )?;
    report(
        rt,
        "second walk",
        CLIMBS,
        |(s, wanted, is_up)| is_climb(s, wanted, *is_up),
    )
}

fn report_parsed(rt: &impl Print, name: &str, rows: &[Parsed]) -> io::Result<()> {
    report(
        rt,
        name,
        rows,
        |(s, path, query, fragment)| is_parsed(s, path, query, fragment),
    )
}

fn specifiers(rt: &impl Print) -> io::Result<()> {
    report_parsed(rt, "path, query, fragment", PARSED)?;
    report_parsed(rt, "marks in front and again", MARKS)?;
    report_parsed(rt, "escaped", ESCAPED)?;
    report_parsed(rt, "zero bytes that escape nothing", ESCAPE_NOTHING)?;
    report(rt, "empty", EMPTY, |s| is_empty(s))
}

// The cases of a group, each as expected or not.
fn report_cases(rt: &impl Print, name: &str, cases: &[bool]) -> io::Result<()> {
    report(rt, name, cases, |case| *case)
}

fn main(rt: HostRuntime) -> io::Result<()> {
    paths(&rt)?;
    package_names(&rt)?;
    specifiers(&rt)?;
    let a = [b'a'; 2049];
    report_cases(&rt, "limits", &limits(&a))?;
    report_cases(&rt, "more limits", &more_limits(&a))?;
    report_cases(&rt, "over-long", &stays_over(&a))?;
    report_cases(&rt, "limits of a specifier", &specifier_limits(&a))?;
    report_cases(&rt, "long paths with escapes", &long_paths(&a))?;
    report_cases(&rt, "second walk of a long specifier", &long_climbs(&a))
}
