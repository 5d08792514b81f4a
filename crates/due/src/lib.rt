// The record that stands at an offset of a sheet where some record-kinds are due: causes 12 and 13.
#![tactic(auto)]

ghost use Rattle.records.specs.Stands.{kind_number};
ghost use Rattle.due.specs.Found.{Admits, FoundAt};

use records::{Kind, Next, Record};
use refusals::{Cause, Refusal};

// What is due: the size; the seed; a share record or the end.
#[derive(Clone, Copy)]
pub enum Due {
    Size,
    Seed,
    Edges,
}

// Tells whether due admits records of kind.
fn admits(due: Due, kind: Kind) -> bool
    ensures { Admits due (kind_number kind) result }
{
    match due {
        Due::Size => matches!(kind, Kind::Size),
        Due::Seed => matches!(kind, Kind::Seed),
        Due::Edges => matches!(kind, Kind::Share | Kind::End),
    }
}

// Finds what stands at offset at of bytes: a whole record, whatever its kind, which is left to the caller; or the refusal for what is no
// whole record, where due says which record-kinds may stand there.
pub fn found_at(bytes: &[u8], at: usize, due: Due) -> Result<Record, Refusal>
    ensures { FoundAt bytes.now at due result }
{
    let undue = refusals::because(Cause::KindNotDue, at);
    let stopped = refusals::because(Cause::CutShort, bytes.len());
    match records::next_at(bytes, at) {
        Next::Whole(record) => Ok(record),
        Next::Cut(kind) if admits(due, kind) => Err(stopped),
        Next::Cut(_) => Err(undue),
        Next::Unknown => Err(undue),
        Next::Nothing => Err(stopped),
    }
}
