// The edges of a sheet: its share records up to the end record, marked in a table. Causes 12 to 15.
#![tactic(auto)]

ghost use Rattle.std.specs.Prelude.{◌≡◌, List, [], ℕ};
ghost use Rattle.lists.specs.Table.{Square};
ghost use Rattle.matching.specs.Edition.{Edition};
ghost use Rattle.matching.specs.Filling.{cells};
ghost use Rattle.edges.specs.Stepped.{Stepped, EdgesRead};

use due::Due;
use filling::Mark;
use records::Record;
use refusals::{Cause, Refusal};

// Reads the record at offset at of bytes, where a share record or the end is due, and marks the edge of a share record in table. Returns the
// offset after a share record, and None after the end.
fn take_record(
    bytes: &[u8],
    at: usize,
    n: usize,
    table: &mut [u8],
) -> Result<Option<usize>, Refusal>
    requires { Square n table.old }
    ensures { Stepped bytes.now at n table.old result table.new }
{
    match due::found_at(bytes, at, Due::Edges)? {
        Record::Share(ends) => match filling::mark_edge(n, ends.a, ends.b, table) {
            Mark::New => Ok(Some(at + 3)),
            Mark::Old => Err(refusals::because(Cause::EdgeRepeated, at)),
            Mark::Refused => Err(refusals::because(Cause::EndsInvalid, at)),
        },
        Record::End => {
            let next = at + 1;
            if next < bytes.len() {
                return Err(refusals::because(Cause::KindNotDue, next));
            }
            Ok(None)
        }
        Record::Size(_) | Record::Seed(_) => Err(refusals::because(Cause::KindNotDue, at)),
    }
}

// Reads the share records of bytes, from offset from up to the end record, marks their edges in table, where every cell is 0 before, and
// returns their number. After each record, the table has the edges of the records so far, and count is their number.
pub fn read_edges(bytes: &[u8], from: usize, n: usize, table: &mut [u8]) -> Result<usize, Refusal>
    requires { Square n table.old × (table.old ≡ cells n []) }
    ensures { (E : Edition) (weights : List ℕ) → EdgesRead E bytes.now from n weights result table.new }
{
    let mut at = from;
    let mut count = 0;
    // at grows with every edge, and no record stands past the end of bytes, so the loop ends.
    while let Some(next) = take_record(bytes, at, n, table)? {
        at = next;
        count += 1;
    }
    Ok(count)
}
