// Tells whether a session is sound: causes 1 to 6 of document 01's table. For cause 6 the inverse for the unmatched vertices is computed
// again and compared.
#![tactic(auto)]

ghost use Rattle.std.specs.Prelude.{◌≡◌, [], ◌∷◌, ◌≤◌, IfOk, length, take};
ghost use Rattle.matching.specs.Causes.{lent_row};
ghost use Rattle.matching.specs.Replay.{lent_answers};
ghost use Rattle.checks.specs.Meaning.{IsLent};
ghost use Rattle.soundness.specs.Sound.{Judged, Confirmed};
ghost use Rattle.soundness.specs.Besides.{ConfirmedLent};

use checks::Lengths;
use graph::Graph;
use refusals::{Buffer, Cause, Refusal};

// Judges causes 5 and 6, if none of 1 to 4 applies. If neither applies, the marks are those of the unmatched vertices.
fn confirm_rest(
    graph: Graph,
    made: usize,
    inverse: &[u16],
    sequence: &[u8],
    kept: &[u8],
    marks: &mut [u8],
) -> Result<(), Refusal>
    requires { Judged graph.size graph.adjacency.now graph.weights.now inverse.now sequence.now kept.now × (length marks.old ≡ graph.size) }
    ensures { let g = graph.entry in
        Confirmed g.size made g.adjacency.now g.weights.now inverse.now sequence.now kept.now marks.new result }
{
    if !sequence::formed(graph.size, graph.adjacency, sequence, made, kept, marks) {
        return Err(refusals::because(Cause::SessionMalformed, 0));
    }
    if !compact::is_inverse(graph, marks, inverse) {
        return Err(refusals::because(Cause::InverseWrong, 0));
    }
    Ok(())
}

// Judges whether a session is sound; if it is, the first n marks are those of the unmatched vertices. There must be room for 96 marks.
pub fn confirm<'a>(
    n: usize,
    made: usize,
    adjacency: &'a [u8],
    weights: &'a [u16],
    inverse: &[u16],
    sequence: &[u8],
    kept: &[u8],
    marks: &mut [u8],
) -> Result<Graph<'a>, Refusal>
    requires { 96 ≤ length marks.old }
    ensures confirmed { Confirmed n made adjacency.now weights.now inverse.now sequence.now
        kept.now (take n marks.new) result }
    ensures lent { IfOk result (λ g. IsLent n adjacency.now weights.now g) }
{
    let graph = checks::judge_session(
        n,
        adjacency,
        weights,
        inverse.len(),
        sequence.len(),
        kept.len(),
    )?;
    confirm_rest(graph, made, inverse, sequence, kept, &mut marks[..n])?;
    Ok(graph)
}

// Confirms a session whose call is lent a row of partners as well, of length row, which is judged after the lengths of buffers 1 to 4 and
// before that of the kept row.
pub fn confirm_row<'a>(
    n: usize,
    made: usize,
    adjacency: &'a [u8],
    weights: &'a [u16],
    inverse: &[u16],
    sequence: &[u8],
    kept: &[u8],
    row: usize,
    marks: &mut [u8],
) -> Result<Graph<'a>, Refusal>
    requires { 96 ≤ length marks.old }
    ensures confirmed { ConfirmedLent (lent_row n row ∷ []) [] n made adjacency.now weights.now inverse.now
        sequence.now kept.now (take n marks.new) result }
    ensures lent { IfOk result (λ g. IsLent n adjacency.now weights.now g) }
{
    let lengths = Lengths {
        adjacency: adjacency.len(),
        weights: weights.len(),
        inverse: inverse.len(),
        sequence: sequence.len(),
    };
    checks::judge_lengths(n, lengths)?;
    if row < n {
        return Err(refusals::too_short(Buffer::Row));
    }
    confirm(n, made, adjacency, weights, inverse, sequence, kept, marks)
}

// Confirms a session whose call is lent answers as well, and needs count of them; their length is judged after that of the kept row and
// before cause 3.
pub fn confirm_answers<'a>(
    n: usize,
    made: usize,
    adjacency: &'a [u8],
    weights: &'a [u16],
    inverse: &[u16],
    sequence: &[u8],
    kept: &[u8],
    answers: usize,
    count: usize,
    marks: &mut [u8],
) -> Result<Graph<'a>, Refusal>
    requires { 96 ≤ length marks.old }
    ensures confirmed { ConfirmedLent [] (lent_answers count answers ∷ []) n made adjacency.now weights.now
        inverse.now sequence.now kept.now (take n marks.new) result }
    ensures lent { IfOk result (λ g. IsLent n adjacency.now weights.now g) }
{
    let lengths = Lengths {
        adjacency: adjacency.len(),
        weights: weights.len(),
        inverse: inverse.len(),
        sequence: sequence.len(),
    };
    checks::judge_lengths(n, lengths)?;
    if kept.len() < n {
        return Err(refusals::too_short(Buffer::Kept));
    }
    if answers < count {
        return Err(refusals::too_short(Buffer::Answers));
    }
    confirm(n, made, adjacency, weights, inverse, sequence, kept, marks)
}
