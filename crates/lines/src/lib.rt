// The lines of a text in the DIMACS edge format: which line begins at an offset of its bytes.
#![tactic(auto)]

ghost use Rattle.std.specs.Prelude.{◌≡◌, ℕ, ◌+◌, ◌≤◌, ◌<◌, length};
ghost use Rattle.matching.specs.Dimacs.{Digit, append};
ghost use Rattle.matching.specs.DimacsComputed.{problem_start, edge_start};
ghost use Rattle.lines.specs.Near.{Near};
ghost use Rattle.lines.specs.Fields.{DigitsAt, FieldAt, ShortAt, TwoAt, ShortTwoAt, SkipAt, StartsAt};
ghost use Rattle.lines.specs.Lines.{ShortEdgeAt, LineAt};

// The number of a field, and the offset after the byte that ends it. A number of 2^64 - 6 or more stands for any other such number.
#[derive(Clone, Copy)]
pub struct Number {
    pub value: usize,
    pub next: usize,
}

// Two fields up to the end of a line, and the offset after it.
#[derive(Clone, Copy)]
pub struct Two {
    pub first: usize,
    pub second: usize,
    pub next: usize,
}

// A line, with its fields and the offset after it; or a byte with which no line begins.
#[derive(Clone, Copy)]
pub enum Line {
    Comment(usize),
    Problem(Two),
    Edge(Two),
    Formless,
}

// The code of the digit 0.
const ZERO: usize = b'0' as usize;

// The largest number that has room for one digit more in 64 bits, whatever the digit.
const ROOM_FOR_A_DIGIT: usize = 1844674407370955160;

// Returns value with one digit more, and the largest number if that would pass it.
fn appended(value: usize, digit: u8) -> usize
    requires { Digit digit }
    ensures { (x : ℕ) → Near value x → Near result (append x digit) }
{
    if value <= ROOM_FOR_A_DIGIT {
        10 * value + (usize::from(digit) - ZERO)
    } else {
        usize::MAX
    }
}

// Reads the digits of bytes from offset from on, any number of them, up to the byte end. They follow digits that come to before, and value
// is what all digits so far come to.
fn digits_at(bytes: &[u8], from: usize, before: usize, end: u8) -> Option<Number>
    requires { end < 48 }
    ensures { (x : ℕ) → Near before x → DigitsAt bytes.now from end x result }
{
    let mut value = before;
    for at in from..bytes.len() {
        let c = bytes[at];
        if c == end {
            return Some(Number {
                value,
                next: at + 1,
            });
        }
        if !c.is_ascii_digit() {
            return None;
        }
        value = appended(value, c);
    }
    None
}

// Reads the field at offset at of bytes: one digit or more, up to the byte end.
fn field_at(bytes: &[u8], at: usize, end: u8) -> Option<Number>
    requires { end < 48 }
    ensures { FieldAt bytes.now at end result }
{
    let c = *bytes.get(at)?;
    if !c.is_ascii_digit() {
        return None;
    }
    digits_at(bytes, at + 1, usize::from(c) - ZERO, end)
}

// Reads the field at offset at of bytes if it has one or two digits. None does not say that none with more digits stands there.
fn short_at(bytes: &[u8], at: usize, end: u8) -> Option<Number>
    requires { at + 3 ≤ length bytes.now }
    ensures { ShortAt bytes.now at end result }
{
    let c = bytes[at];
    if !c.is_ascii_digit() {
        return None;
    }
    let d = bytes[at + 1];
    if d == end {
        return Some(Number {
            value: usize::from(c) - ZERO,
            next: at + 2,
        });
    }
    if !d.is_ascii_digit() || bytes[at + 2] != end {
        return None;
    }
    Some(Number {
        value: 10 * (usize::from(c) - ZERO) + (usize::from(d) - ZERO),
        next: at + 3,
    })
}

// Reads two fields at offset at of bytes, parted by a space, up to a line feed.
fn two_at(bytes: &[u8], at: usize) -> Option<Two>
    ensures { TwoAt bytes.now at result }
{
    let first = field_at(bytes, at, b' ')?;
    let second = field_at(bytes, first.next, b'\n')?;
    Some(Two {
        first: first.value,
        second: second.value,
        next: second.next,
    })
}

// Reads two fields at offset at of bytes as two_at does, if both have one or two digits. None does not say that none with more digits
// stand there.
fn short_two_at(bytes: &[u8], at: usize) -> Option<Two>
    requires { at + 6 ≤ length bytes.now }
    ensures { ShortTwoAt bytes.now at result }
{
    let first = short_at(bytes, at, b' ')?;
    let second = short_at(bytes, first.next, b'\n')?;
    Some(Two {
        first: first.value,
        second: second.value,
        next: second.next,
    })
}

// Finds the first line feed of bytes from offset from on, and returns the offset after it.
fn skip_at(bytes: &[u8], from: usize) -> Option<usize>
    requires { from ≤ length bytes.now }
    ensures { SkipAt bytes.now from result }
{
    let skipped = bytes[from..].iter().position(|c| *c == b'\n')?;
    Some(from + skipped + 1)
}

// Tells whether `e ` stands at offset at of bytes.
fn starts_edge(bytes: &[u8], at: usize) -> bool
    requires { at ≤ length bytes.now }
    ensures { StartsAt edge_start bytes.now at result }
{
    matches!(&bytes[at..], [b'e', b' ', ..])
}

// Tells whether `p edge ` stands at offset at of bytes.
fn starts_problem(bytes: &[u8], at: usize) -> bool
    requires { at ≤ length bytes.now }
    ensures { StartsAt problem_start bytes.now at result }
{
    bytes[at..].starts_with(b"p edge ")
}

// Reads the line at offset at of bytes, or None if no byte stands there.
pub fn line_at(bytes: &[u8], at: usize) -> Option<Line>
    ensures { LineAt bytes.now at result }
{
    let first = *bytes.get(at)?;
    Some(if starts_edge(bytes, at) {
        two_at(bytes, at + 2).map_or(Line::Formless, Line::Edge)
    } else if starts_problem(bytes, at) {
        two_at(bytes, at + 7).map_or(Line::Formless, Line::Problem)
    } else if first == b'c' {
        skip_at(bytes, at + 1).map_or(Line::Formless, Line::Comment)
    } else {
        Line::Formless
    })
}

// Reads the fields of the `e` line at offset at of bytes if both have one or two digits, unless it is within the last eight bytes. It is
// for speed: nearly all lines of a text are such lines, and line_at takes three times as long. None does not say that no line stands
// there.
pub fn short_edge_at(bytes: &[u8], at: usize) -> Option<Two>
    ensures { ShortEdgeAt bytes.now at result }
{
    if bytes.len() < 8 || bytes.len() - 8 < at || !starts_edge(bytes, at) {
        return None;
    }
    short_two_at(bytes, at + 2)
}
