// The automaton that reads the bytes of a string of RFC 8259 behind its opening quote, one by one: UTF-8 sequences,
// escapes, surrogate pairs.

// The proofs look into the definitions that are named here.
#![tactic(auto, using(std::proofs::lemmas::Bool::Decides::nat_tests, crate::proofs::Steps::fits_good), unfolding(definition::specs::Json::plain_byte, definition::specs::Json::sequence_byte, definition::specs::Json::escape_byte, definition::specs::Json::unit, definition::specs::Json::pair, definition::specs::Json::hex_byte, definition::specs::Json::second_hex_byte, definition::specs::Json::step, definition::specs::Text::within, definition::specs::Text::is_digit, definition::specs::Text::hex_digit, crate::specs::Automaton::lead_byte, crate::specs::Automaton::follows, crate::specs::Automaton::advanced))]

ghost use Rattle.std.specs.Prelude.{◌≡◌, ◌<◌, [], ◌==◌, if◌then◌else◌};
ghost use Rattle.definition.specs.Text.{within, hex_digit};
ghost use Rattle.definition.specs.Json.{plain_byte, escape_byte, unit as unit_of, pair as pair_of, hex_byte, second_hex_byte, step as stepBy, sequence, gives, bad};
ghost use Rattle.json_string.specs.Automaton.{place_of, Steps, Good, High, Below, lead_byte, WithDigit, follows as followsOf, fits as fits_of, advanced};

// Where the reader of a string stands: the definition's place.
#[derive(Clone, Copy, Debug, PartialEq, Eq)]
pub enum Place {
    Between,
    // So many more bytes of a UTF-8 sequence are due, the next one within low to high.
    Sequence { due: u8, low: u8, high: u8 },
    Escape,
    // So many more hexadecimal digits are due; those read are worth the value.
    Hex { due: u8, value: u32 },
    SecondEscape { high: u32 },
    SecondU { high: u32 },
    SecondHex { high: u32, due: u8, value: u32 },
}

// The decoded bytes that a byte gives: itself or another one, or those of a code point.
#[derive(Clone, Copy, Debug, PartialEq, Eq)]
pub enum Out {
    Byte(u8),
    Point(char),
}

// What a byte that fits does: it ends the string, or it leads to a place and may give decoded bytes.
#[derive(Clone, Copy, Debug, PartialEq, Eq)]
pub enum Step {
    Close,
    Gives(Option<Out>, Place),
}

// A byte between characters.
fn plain_byte(b: u8) -> Option<Step>
    ensures { Steps (plain_byte b) result }
{
    match b {
        ..32 => None,
        b'"' => Some(Step::Close),
        b'\\' => Some(Step::Gives(None, Place::Escape)),
        ..128 => Some(Step::Gives(Some(Out::Byte(b)), Place::Between)),
        _ => lead_byte(b),
    }
}

// The first byte of a UTF-8 sequence.
fn lead_byte(b: u8) -> Option<Step>
    ensures { Steps (lead_byte b) result }
{
    let (due, low, high) = match b {
        194..=223 => (1, 128, 191),
        224 => (2, 160, 191),
        237 => (2, 128, 159),
        225..=239 => (2, 128, 191),
        240 => (3, 144, 191),
        241..=243 => (3, 128, 191),
        244 => (3, 128, 143),
        _ => return None,
    };
    Some(Step::Gives(Some(Out::Byte(b)), Place::Sequence { due, low, high }))
}

// A further byte of a UTF-8 sequence.
fn sequence_byte(due: u8, low: u8, high: u8, b: u8) -> Option<Step>
    requires { 0 < due }
    ensures { Steps (stepBy (sequence due low high) b) result }
{
    let place = match due {
        1 => Place::Between,
        _ => Place::Sequence {
            due: due - 1,
            low: 128,
            high: 191,
        },
    };
    (low..=high)
        .contains(&b)
        .then_some(Step::Gives(Some(Out::Byte(b)), place))
}

// The byte behind a backslash.
fn escape_byte(b: u8) -> Option<Step>
    ensures { Steps (escape_byte b) result }
{
    let meant = match b {
        b'"' | b'\\' | b'/' => b,
        b'b' => 8,
        b'f' => 12,
        b'n' => b'\n',
        b'r' => b'\r',
        b't' => b'\t',
        b'u' => return Some(Step::Gives(None, Place::Hex { due: 4, value: 0 })),
        _ => return None,
    };
    Some(Step::Gives(Some(Out::Byte(meant)), Place::Between))
}

// A high surrogate.
fn is_high(v: u32) -> bool
    ensures { result ≡ within 55296 56319 v }
{
    matches!(v, 0xd800..=0xdbff)
}

// The number behind \u: a high surrogate waits for its partner, a low one is no character.
fn unit(v: u32) -> Option<Step>
    requires { v < 65536 }
    ensures { Steps (unit_of v) result }
{
    if is_high(v) {
        return Some(Step::Gives(None, Place::SecondEscape { high: v }));
    }
    let c = char::from_u32(v)?;
    Some(Step::Gives(Some(Out::Point(c)), Place::Between))
}

// The two halves of a surrogate pair.
fn pair(high: u32, low: u32) -> Option<Step>
    requires { High high }
    ensures { Steps (pair_of high low) result }
{
    if !matches!(low, 0xdc00..=0xdfff) {
        return None;
    }
    let c = char::from_u32(0x10000 + (high - 0xd800) * 0x400 + (low - 0xdc00)).unwrap();
    Some(Step::Gives(Some(Out::Point(c)), Place::Between))
}

// The value of hexadecimal digits with one more behind them.
fn with_digit(value: u32, b: u8) -> Option<u32>
    requires { value < 4096 }
    ensures { WithDigit value (hex_digit b) result }
{
    let digit = char::from(b).to_digit(16)?;
    Some(value * 16 + digit)
}

fn hex_byte(due: u8, value: u32, b: u8) -> Option<Step>
    requires { Below due value }
    ensures { Steps (hex_byte due value (hex_digit b)) result }
{
    let value = with_digit(value, b)?;
    match due {
        1 => unit(value),
        _ => Some(Step::Gives(
            None,
            Place::Hex {
                due: due - 1,
                value,
            },
        )),
    }
}

fn second_hex_byte(high: u32, due: u8, value: u32, b: u8) -> Option<Step>
    requires { High high × Below due value }
    ensures { Steps (second_hex_byte high due value (hex_digit b)) result }
{
    let value = with_digit(value, b)?;
    match due {
        1 => pair(high, value),
        _ => Some(Step::Gives(
            None,
            Place::SecondHex {
                high,
                due: due - 1,
                value,
            },
        )),
    }
}

// The place behind the one byte that fits here.
fn only(b: u8, wanted: u8, place: Place) -> Option<Step>
    requires { Good place }
    ensures { Steps (if b == wanted then gives [] (place_of place) else bad) result }
{
    (b == wanted).then_some(Step::Gives(None, place))
}

// What a byte does at a place that a string can lead to.
fn transition(p: Place, b: u8) -> Option<Step>
    requires { Good p }
    ensures { Steps (stepBy (place_of p) b) result }
{
    match p {
        Place::Between => plain_byte(b),
        Place::Sequence { due, low, high } => sequence_byte(due, low, high, b),
        Place::Escape => escape_byte(b),
        Place::Hex { due, value } => hex_byte(due, value, b),
        Place::SecondEscape { high } => only(b, b'\\', Place::SecondU { high }),
        Place::SecondU { high } => only(
            b,
            b'u',
            Place::SecondHex {
                high,
                due: 4,
                value: 0,
            },
        ),
        Place::SecondHex { high, due, value } => second_hex_byte(high, due, value, b),
    }
}

// Whether so many more hexadecimal digits may follow those that give the value.
fn follows(due: u8, value: u32) -> bool
    ensures { result ≡ followsOf due value }
{
    match due {
        1 => value < 0x1000,
        2 => value < 0x100,
        3 => value < 0x10,
        4 => value == 0,
        _ => false,
    }
}

// Whether the numbers of a place are those of one that a string can lead to.
fn fits(p: Place) -> bool
    ensures { result ≡ fits_of p }
{
    match p {
        Place::Between | Place::Escape => true,
        Place::Sequence { due, .. } => due > 0,
        Place::Hex { due, value } => follows(due, value),
        Place::SecondEscape { high } | Place::SecondU { high } => is_high(high),
        Place::SecondHex { high, due, value } => is_high(high) && follows(due, value),
    }
}

// What a byte does at a place: None where it fits nowhere, and at a place to which no string leads.
pub fn advance(p: Place, b: u8) -> Option<Step>
    ensures { Steps (advanced p b) result }
{
    if fits(p) { transition(p, b) } else { None }
}
