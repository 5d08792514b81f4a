// The records of a sheet: what stands at an offset of its bytes.
#![tactic(auto)]

ghost use Rattle.records.specs.Stands.{Stands};

// Two vertices as a record has them, in either order.
#[derive(Clone, Copy)]
pub struct Ends {
    pub a: usize,
    pub b: usize,
}

// A record with its body: the size; two vertices that are adjacent; the seed; the end.
#[derive(Clone, Copy)]
pub enum Record {
    Size(usize),
    Share(Ends),
    Seed(u32),
    End,
}

// A kind of record, without a body.
#[derive(Clone, Copy)]
pub enum Kind {
    Size,
    Share,
    Seed,
    End,
}

// What stands at an offset.
#[derive(Clone, Copy)]
pub enum Next {
    // A whole record.
    Whole(Record),
    // A record-kind whose body is cut.
    Cut(Kind),
    // A byte that is not a record-kind.
    Unknown,
    // No byte.
    Nothing,
}

// Reads what stands at offset at of bytes.
pub fn next_at(bytes: &[u8], at: usize) -> Next
    ensures { Stands bytes.now at result }
{
    if bytes.len() <= at {
        return Next::Nothing;
    }
    let body = &bytes[at + 1..];
    match bytes[at] {
        1 => match *body {
            [n, ..] => Next::Whole(Record::Size(usize::from(n))),
            _ => Next::Cut(Kind::Size),
        },
        2 => match *body {
            [a, b, ..] => Next::Whole(Record::Share(Ends {
                a: usize::from(a),
                b: usize::from(b),
            })),
            _ => Next::Cut(Kind::Share),
        },
        3 => match *body {
            [a, b, c, d, ..] => Next::Whole(Record::Seed(u32::from_le_bytes([a, b, c, d]))),
            _ => Next::Cut(Kind::Seed),
        },
        4 => Next::Whole(Record::End),
        _ => Next::Unknown,
    }
}
