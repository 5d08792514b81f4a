// Opening: the inverse of the Tutte matrix of a lent graph, or the witness of its first dependent column, or a refusal.
#![tactic(auto)]

ghost use Rattle.residue.specs.Modulus.{modulus};
ghost use Rattle.matching.specs.Graph.{over};
ghost use Rattle.matching.specs.Opening.{players, Opens, OpenedExactly};
ghost use Rattle.graph.specs.Meaning.{graph_is};
ghost use Rattle.opening.specs.Meaning.{opening_of, buffers};
ghost use Rattle.opening.specs.OpeningState.{OpeningReady, Begun};

use graph::Graph;
use refusals::Refusal;
use session::Session;

// What opening answers on a graph that is in order: a session with no pairs, or the first dependent column.
#[derive(Clone, Copy)]
pub enum Opening {
    Opened(Session),
    Singular(usize),
}

// Opens a session on a graph that has been checked. Writes the inverse for the kept vertices, and the witness if not all are kept. The caller
// zeroes the witness if all are kept, and the inverse if not. Returns the first dependent column, if any.
fn begin_accepted(
    graph: Graph,
    inverse: &mut [u16],
    sequence: &mut [u8],
    witness: &mut [u16],
) -> Option<usize>
    requires { OpeningReady graph.size inverse.old sequence.old witness.old }
    ensures { Begun (graph_is graph.entry) inverse.old sequence.old witness.old result
        inverse.new sequence.new witness.new }
{
    let n = graph.size;
    let cells = n * n;
    // All vertices are in the set.
    let mut all = [1u8; 96];
    buffers::fill(sequence, n, 255);
    solve::solve(
        graph,
        &mut all[..n],
        &mut inverse[..cells],
        &mut witness[..n],
    )
}

// Opens a session on a graph. Writes the inverse or the witness, whichever exists, and zeroes the other.
pub fn begin(
    n: usize,
    adjacency: &[u8],
    weights: &[u16],
    inverse: &mut [u16],
    sequence: &mut [u8],
    witness: &mut [u16],
    work: &mut [u16],
) -> Result<Opening, Refusal>
    ensures opens { let lent = buffers inverse.old sequence.old witness.old work.old in
        let g = over n adjacency.now weights.now in
        let after = buffers inverse.new sequence.new witness.new work.new in
        Opens modulus g (players n lent) lent (opening_of result) after }
    ensures exactly { let lent = buffers inverse.old sequence.old witness.old work.old in
        let g = over n adjacency.now weights.now in
        OpenedExactly modulus g (players n lent) lent (opening_of result) }
{
    let graph = checks::judge_opening(
        n,
        adjacency,
        weights,
        inverse.len(),
        sequence.len(),
        witness.len(),
        work.len(),
    )?;
    let cells = n * n;
    buffers::fill(work, cells, 0);
    match begin_accepted(graph, inverse, sequence, witness) {
        None => {
            buffers::fill(witness, n, 0);
            Ok(Opening::Opened(Session { size: n, made: 0 }))
        }
        Some(f) => {
            buffers::fill(inverse, cells, 0);
            Ok(Opening::Singular(f))
        }
    }
}
