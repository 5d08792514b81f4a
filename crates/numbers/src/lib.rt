// The number that answers the host, by its bits (docs/HOST.md).
#![tactic(auto)]

ghost use Rattle.std.specs.Prelude.{◌≡◌, ℕ, ◌<◌, ◌^◌};
ghost use Rattle.matching.specs.Decision.{place_number};
ghost use Rattle.matching.specs.Filling.{not_read};
ghost use Rattle.matching.specs.Host.{number, refusal_number, ruled_number, read_number, capped};
ghost use Rattle.refusals.specs.Meaning.{place_of, refusal_of, ruling_of};
ghost use Rattle.numbers.specs.Bits.{RulingFits};
ghost use Rattle.numbers.specs.Kinds.{kind_number};

use refusals::Refusal;

// What a call that was carried out answers. docs/HOST.md has the value of each.
#[derive(Clone, Copy)]
pub enum AnswerKind {
    Opened = 1,
    Witness = 2,
    Pair = 3,
    Row = 4,
    Replayed = 5,
    Read = 6,
    Drawn = 7,
}

// The last line of a text that a number can name, 2^47 - 1.
const LAST_LINE: u64 = 140737488355327;

// Returns the number of a call that was carried out: its answer-kind, its value, and the pairs made.
pub fn carried(kind: AnswerKind, value: u64, made: u64) -> u64
    requires { (value < 2 ^ 16) × (made < 2 ^ 8) }
    ensures { result ≡ number 0 (kind_number kind) value made }
{
    256 * (kind as u64) + 65536 * value + 4294967296 * made
}

// Returns the number of a refusal.
pub fn refused(refusal: Refusal) -> u64
    requires { place_number (place_of refusal.place) < 2 ^ 24 }
    ensures { result ≡ refusal_number (refusal_of refusal) }
{
    refusal.cause as u64 + 65536 * (refusals::place_number(refusal.place) as u64)
}

// Returns the number of a refusal of a text: a line after the last that a number can name is given as that one.
pub fn refused_at_line(refusal: Refusal) -> u64
    ensures { result ≡ read_number (capped (not_read (refusal_of refusal))) }
{
    let line = refusals::place_number(refusal.place) as u64;
    refusal.cause as u64 + 65536 * line.min(LAST_LINE)
}

// Returns the number of a call whose answer has no value: the answer-kind and the pairs made, or the refusal.
pub fn ruled(kind: AnswerKind, ruling: Result<(), Refusal>, made: usize) -> u64
    requires { RulingFits (ruling_of ruling) made }
    ensures { (n : ℕ) → result ≡ ruled_number (kind_number kind) (ruling_of ruling) (record { size = n; made = made }) }
{
    match ruling {
        Ok(()) => carried(kind, 0, made as u64),
        Err(refusal) => refused(refusal),
    }
}
