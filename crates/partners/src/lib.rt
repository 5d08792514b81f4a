// Which vertices may be matched, by the inverse for the unmatched vertices: causes 7 to 10 of document 01's table, the lowest partner of a
// vertex, and the row of all its partners. The unmatched vertices are marked: a byte for each vertex, not 0 if it is unmatched.
#![tactic(auto)]

ghost use Rattle.std.specs.Prelude.{◌≡◌, ◌<◌, length};
ghost use Rattle.matching.specs.Calls.{bit_of};
ghost use Rattle.refusals.specs.Meaning.{ruling_of, Finds};
ghost use Rattle.partners.specs.Standing.{Tables, Judges, Marked, FindsPartner, ShowsPartners, RowOf};

use refusals::{Cause, Refusal};

// Judges a pick of a and b: causes 7 to 10.
pub fn judge(
    n: usize,
    adjacency: &[u8],
    inverse: &[u16],
    marks: &[u8],
    a: usize,
    b: usize,
) -> Result<(), Refusal>
    requires { Tables n adjacency.now inverse.now marks.now }
    ensures { Judges n adjacency.now inverse.now marks.now a b result }
{
    if n <= a || n <= b || a == b {
        return Err(refusals::because(Cause::VertexInvalid, 0));
    }
    if marks[a] == 0 || marks[b] == 0 {
        return Err(refusals::because(Cause::VertexMatched, 0));
    }
    let at = a * n + b;
    if adjacency[at] != 1 {
        return Err(refusals::because(Cause::NotAdjacent, 0));
    }
    if inverse[at] == 0 {
        return Err(refusals::because(Cause::RestSingular, 0));
    }
    Ok(())
}

// Finds the lowest marked vertex.
pub fn lowest(marks: &[u8]) -> Option<usize>
    ensures { Finds (length marks.now) (Marked marks.now) result }
{
    marks.iter().position(|mark| *mark != 0)
}

// Finds the lowest vertex whose pick with c is accepted.
pub fn partner(n: usize, adjacency: &[u8], inverse: &[u16], marks: &[u8], c: usize) -> Option<usize>
    requires { Tables n adjacency.now inverse.now marks.now }
    ensures { FindsPartner n adjacency.now inverse.now marks.now c result }
{
    for r in 0..n {
        if judge(n, adjacency, inverse, marks, c, r).is_ok() {
            return Some(r);
        }
    }
    None
}

// Returns 1 if no cause applies, else 0.
fn bit(ruling: Result<(), Refusal>) -> u8
    ensures { result ≡ bit_of (ruling_of ruling) }
{
    u8::from(ruling.is_ok())
}

// Sets row[b], for each vertex b, to 1 if a pick of a and b is accepted, else to 0.
fn show(n: usize, adjacency: &[u8], inverse: &[u16], marks: &[u8], a: usize, row: &mut [u8])
    requires { Tables n adjacency.now inverse.now marks.now × (length row.old ≡ n) }
    ensures { ShowsPartners n adjacency.now inverse.now marks.now a row.new }
{
    for (b, byte) in row.iter_mut().enumerate() {
        *byte = bit(judge(n, adjacency, inverse, marks, a, b));
    }
}

// Calls show, unless a is out of range or not unmatched: causes 7 and 8.
pub fn row(
    n: usize,
    adjacency: &[u8],
    inverse: &[u16],
    marks: &[u8],
    a: usize,
    row: &mut [u8],
) -> Result<(), Refusal>
    requires { Tables n adjacency.now inverse.now marks.now × (length row.old ≡ n) }
    ensures { RowOf n adjacency.now inverse.now marks.now a row.old (ruling_of result)
        row.new }
{
    if n <= a {
        return Err(refusals::because(Cause::VertexInvalid, 0));
    }
    if marks[a] == 0 {
        return Err(refusals::because(Cause::VertexMatched, 0));
    }
    show(n, adjacency, inverse, marks, a, row);
    Ok(())
}
