// The lines of a graph in the listing: the numbers of its vertices and edges, its pairs or its witness, and the verdict.
#![tactic(auto)]

ghost use Rattle.std.specs.Prelude.{◌≡◌, List, ℕ, ◌+◌, ◌≤◌, ◌<◌, length, replicate};
ghost use Rattle.residue.specs.Modulus.{modulus, modulus_prime};
ghost use Rattle.matching.specs.Decision.{accepted};
ghost use Rattle.matching.specs.Graph.{over};
ghost use Rattle.matching.specs.Causes.{opening_ruling};
ghost use Rattle.matching.specs.Listing.{GraphLines, players_of};
ghost use Rattle.verdict.specs.Lines.{Writes, AllLines, Fresh, FreshFor, Acceptable};

use opening::Opening;

// Writes the lines of a session fresh from opening: its pairs, at most 48 lines of 13 bytes, and the verdict that all vertices are matched,
// 10 bytes.
fn full_lines(
    n: usize,
    adjacency: &[u8],
    inverse: &mut [u16],
    sequence: &mut [u8],
    marks: &mut [u8],
    text: &mut [u8],
    at: usize,
) -> usize
    requires fresh { FreshFor n adjacency.now inverse.old sequence.old marks.old }
    requires room { at + 634 ≤ length text.old }
    ensures { (weights : List ℕ)
        → Fresh n adjacency.now weights inverse.old sequence.old marks.old
        → Writes (GraphLines modulus_prime (over n adjacency.now weights) (players_of n)) at text.old text.new result }
{
    let made = completion::complete(n, adjacency, inverse, sequence, marks);
    let next = text::pair_lines(text, at, sequence, made);
    text::full_verdict(text, next)
}

// Writes the lines after the first: those of full_lines, or at most 96 lines of 17 bytes for a witness, and the verdict.
fn verdict_lines(
    n: usize,
    adjacency: &[u8],
    weights: &[u16],
    inverse: &mut [u16],
    sequence: &mut [u8],
    witness: &mut [u16],
    work: &mut [u16],
    marks: &mut [u8],
    text: &mut [u8],
    at: usize,
) -> usize
    requires accepted { opening_ruling modulus (over n adjacency.now weights.now) (length inverse.old) (length sequence.old)
        (length witness.old) (length work.old) ≡ accepted }
    requires all_marked { marks.old ≡ replicate n 1 }
    requires room { at + 1642 ≤ length text.old }
    ensures { let g = over n adjacency.now weights.now in
        Writes (GraphLines modulus_prime g (players_of n)) at text.old text.new result }
{
    match opening::begin(n, adjacency, weights, inverse, sequence, witness, work) {
        Ok(Opening::Opened(_)) => full_lines(n, adjacency, inverse, sequence, marks, text, at),
        Ok(Opening::Singular(_)) => {
            let next = text::witness_lines(text, at, &witness[..n]);
            text::witness_verdict(text, next, n)
        }
        Err(_) => unreachable!("the graph is accepted"),
    }
}

// Writes all lines of a graph in order; edges is the number of its edges.
pub fn graph_lines(
    n: usize,
    edges: usize,
    adjacency: &[u8],
    weights: &[u16],
    text: &mut [u8],
) -> usize
    requires acceptable { Acceptable (over n adjacency.now weights.now) }
    requires few_edges { edges < 100000 }
    requires room { 2048 ≤ length text.old }
    ensures { let g = over n adjacency.now weights.now in
        Writes (AllLines g edges) 0 text.old text.new result }
{
    // The words and bytes of the largest graph: 96 * 96, and 96.
    let mut inverse = [0u16; 9216];
    let mut sequence = [0u8; 96];
    let mut witness = [0u16; 96];
    let mut work = [0u16; 9216];
    let mut marks = [1u8; 96];
    let next = text::first_line(text, 0, n, edges);
    verdict_lines(
        n,
        adjacency,
        weights,
        &mut inverse,
        &mut sequence,
        &mut witness,
        &mut work,
        &mut marks[..n],
        text,
        next,
    )
}
