// The lines of a text in the DIMACS edge format, one after another: the `p` line, and the `e` lines after it, whose edges are marked in a
// table. Causes 16, 1 and 14.
#![tactic(auto)]

ghost use Rattle.std.specs.Prelude.{◌≡◌, [], ◌+◌, ◌≤◌};
ghost use Rattle.lists.specs.Table.{Square};
ghost use Rattle.matching.specs.Filling.{cells};
ghost use Rattle.edge_lines.specs.Headed.{Heads};
ghost use Rattle.edge_lines.specs.Stepped.{EdgeStepped, Stepped, EdgesRead};

use filling::Mark;
use lines::{Line, Two};
use refusals::{Cause, Refusal};

// What the `p` line says, the offset after it, and the number of the line there.
#[derive(Clone, Copy)]
pub struct Head {
    pub size: usize,
    pub announced: usize,
    pub next: usize,
    pub line: usize,
}

// What the line at an offset is: a comment, a new edge or an old one, with the offset after it; or the end of the text.
#[derive(Clone, Copy)]
pub enum Step {
    Comment(usize),
    New(usize),
    Old(usize),
    Done,
}

// The number of `e` lines, and of edges.
#[derive(Clone, Copy)]
pub struct Count {
    pub lines: usize,
    pub edges: usize,
}

// Reads bytes up to the `p` line. Only comments stand before it; at is the offset after those so far, and line the number of the line there.
pub fn read_head(bytes: &[u8]) -> Result<Head, Refusal>
    ensures { Heads bytes.now result }
{
    let mut at = 0;
    let mut line = 1;
    loop {
        match lines::line_at(bytes, at) {
            Some(Line::Comment(after)) => {
                at = after;
                line += 1;
            }
            Some(Line::Problem(two)) => {
                if two.first > checks::LARGEST {
                    return Err(refusals::because(Cause::SizeTooLarge, line));
                }
                return Ok(Head {
                    size: two.first,
                    announced: two.second,
                    next: two.next,
                    line: line + 1,
                });
            }
            Some(Line::Edge(_)) => return Err(refusals::because(Cause::LineInvalid, line)),
            Some(Line::Formless) => return Err(refusals::because(Cause::LineInvalid, line)),
            None => return Err(refusals::because(Cause::LineInvalid, 0)),
        }
    }
}

// Takes an `e` line with these fields. A text counts its vertices from 1.
fn take_edge(n: usize, two: Two, table: &mut [u8]) -> Result<Step, Cause>
    requires { Square n table.old }
    ensures { EdgeStepped two n table.old result table.new }
{
    if two.first == 0 || two.second == 0 {
        return Err(Cause::EndsInvalid);
    }
    match filling::mark_edge(n, two.first - 1, two.second - 1, table) {
        Mark::New => Ok(Step::New(two.next)),
        Mark::Old => Ok(Step::Old(two.next)),
        Mark::Refused => Err(Cause::EndsInvalid),
    }
}

// Takes the line at offset at of bytes, where a comment or an `e` line may stand.
fn take_any(bytes: &[u8], at: usize, n: usize, table: &mut [u8]) -> Result<Step, Cause>
    requires { Square n table.old }
    ensures { Stepped bytes.now at n table.old result table.new }
{
    match lines::line_at(bytes, at) {
        Some(Line::Comment(after)) => Ok(Step::Comment(after)),
        Some(Line::Problem(_)) => Err(Cause::LineInvalid),
        Some(Line::Edge(two)) => take_edge(n, two, table),
        Some(Line::Formless) => Err(Cause::LineInvalid),
        None => Ok(Step::Done),
    }
}

// take_any, with a shortcut for an `e` line with short fields.
fn take_line(bytes: &[u8], at: usize, n: usize, table: &mut [u8]) -> Result<Step, Cause>
    requires { Square n table.old }
    ensures { Stepped bytes.now at n table.old result table.new }
{
    match lines::short_edge_at(bytes, at) {
        Some(two) => take_edge(n, two, table),
        None => take_any(bytes, at, n, table),
    }
}

// Takes the lines of bytes from offset from on, to the end, and marks their edges in table, where every cell is 0 before. first is the
// number of the line at from. After each line, the table has the edges of the lines so far, lines is the number of these that are `e` lines
// and count that of their edges.
pub fn read_edges(
    bytes: &[u8],
    from: usize,
    first: usize,
    n: usize,
    table: &mut [u8],
) -> Result<Count, Refusal>
    requires { Square n table.old × (table.old ≡ cells n []) × (first ≤ from + 1) }
    ensures { EdgesRead bytes.now from first n result table.new }
{
    let mut at = from;
    let mut line = first;
    let mut lines = 0;
    let mut count = 0;
    // at grows with every line, and no line stands past the end of bytes, so the loop ends.
    loop {
        match take_line(bytes, at, n, table) {
            Ok(Step::Comment(next)) => at = next,
            Ok(Step::New(next)) => {
                at = next;
                lines += 1;
                count += 1;
            }
            Ok(Step::Old(next)) => {
                at = next;
                lines += 1;
            }
            Ok(Step::Done) => {
                return Ok(Count {
                    lines,
                    edges: count,
                });
            }
            Err(cause) => return Err(refusals::because(cause, line)),
        }
        line += 1;
    }
}
