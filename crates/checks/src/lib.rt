// Checks a lent graph: causes 1 to 4 of document 01's table, in that order, each with its place; that of 3 is the cell that document 02,
// request 2, asks for.
#![tactic(auto)]

ghost use Rattle.std.specs.Prelude.{◌≡◌, List, [], ◌∷◌, ◌++◌, ℕ, ◌+◌, ◌*◌, ◌≤◌, ◌<◌, ◌↔◌, IfOk, IsTrue, length, get_or};
ghost use Rattle.residue.specs.Modulus.{modulus};
ghost use Rattle.matching.specs.Decision.{judge, Every};
ghost use Rattle.matching.specs.Graph.{largest, pair_count, over};
ghost use Rattle.matching.specs.Causes.{lent_always, lent_besides, lent_kept, first_short, opening_causes, opening_ruling};
ghost use Rattle.matching.specs.Causes.{too_large, too_short, bad_cell, bad_weight};
ghost use Rattle.refusals.specs.Meaning.{buffer_of, fault_number, finding_of, ruling_of, Finds};
ghost use Rattle.graph.specs.Meaning.{graph_is};
ghost use Rattle.checks.specs.Weights.{needed};
ghost use Rattle.checks.specs.Meaning.{InRow, IsLent, Located};

use graph::Graph;
use refusals::{Buffer, Cause, Fault, FaultyCell, Refusal};
use residue::Residue;

// The most vertices that a graph may have.
pub const LARGEST: usize = 96;

// The lengths of the buffers that opening and every session call are lent.
#[derive(Clone, Copy)]
pub struct Lengths {
    pub adjacency: usize,
    pub weights: usize,
    pub inverse: usize,
    pub sequence: usize,
}

// Returns n (n - 1) / 2, one for each two vertices.
fn pair_count(n: usize) -> usize
    requires { n ≤ largest }
    ensures { result ≡ pair_count n }
{
    if n == 0 { 0 } else { n * (n - 1) / 2 }
}

// Returns how many weights a graph of n vertices needs: one for each two vertices, and 0 if n is above 96.
pub fn weights_needed(n: usize) -> usize
    ensures { result ≡ needed n }
{
    if LARGEST < n { 0 } else { pair_count(n) }
}

// Finds the first buffer that is too short for n vertices, of those that opening and every session call are lent.
fn first_short(n: usize, lengths: Lengths) -> Option<Buffer>
    requires { n ≤ largest }
    ensures { buffer_of result ≡ first_short (lent_always n lengths.adjacency lengths.weights lengths.inverse lengths.sequence) }
{
    let cells = n * n;
    if lengths.adjacency < cells {
        return Some(Buffer::Adjacency);
    }
    if lengths.weights < pair_count(n) {
        return Some(Buffer::Weights);
    }
    if lengths.inverse < cells {
        return Some(Buffer::Inverse);
    }
    if lengths.sequence < n {
        return Some(Buffer::Sequence);
    }
    None
}

// Judges causes 1 and 2 by n and the lengths of buffers 1 to 4.
pub fn judge_lengths(n: usize, lengths: Lengths) -> Result<(), Refusal>
    ensures { ruling_of result ≡ judge (too_large n ∷ too_short (lent_always n lengths.adjacency lengths.weights lengths.inverse lengths.sequence) ∷ []) }
{
    if LARGEST < n {
        return Err(refusals::because(Cause::SizeTooLarge, 0));
    }
    match first_short(n, lengths) {
        None => Ok(()),
        Some(buffer) => Err(refusals::too_short(buffer)),
    }
}

// Returns the cell in this row and column, with its fault.
fn faulty(row: usize, column: usize, fault: Fault) -> FaultyCell
    requires { (row < largest) × (column < largest) }
    ensures { result ≡ record { row = row; column = column; fault = fault_number fault } }
{
    let row = row as u8;
    let column = column as u8;
    let fault = fault.number();
    FaultyCell { row, column, fault }
}

// Finds the first fault of a row from the diagonal on. A cell's mirror is the cell with its row and its column exchanged.
fn row_fault(graph: Graph, row: usize) -> Option<FaultyCell>
    requires { row < graph.size }
    ensures { InRow (graph_is graph.entry) row result }
{
    let n = graph.size;
    let diagonal = graph.adjacency[row * n + row];
    if 1 < diagonal {
        return Some(faulty(row, row, Fault::NotBit));
    }
    if diagonal != 0 {
        return Some(faulty(row, row, Fault::OnDiagonal));
    }
    for column in row + 1..n {
        let cell = graph.adjacency[row * n + column];
        let mirror = graph.adjacency[column * n + row];
        if 1 < cell {
            return Some(faulty(row, column, Fault::NotBit));
        }
        if cell != mirror {
            return Some(faulty(row, column, Fault::Unequal));
        }
    }
    None
}

// Finds the first fault, row by row. A cell below the diagonal has a fault only if its mirror, which comes earlier, has one.
fn first_fault(graph: Graph) -> Option<FaultyCell>
    ensures { Located (graph_is graph.entry) result }
{
    for row in 0..graph.size {
        if let Some(cell) = row_fault(graph, row) {
            return Some(cell);
        }
    }
    None
}

// Tells whether weight is 0 or not below the modulus.
fn is_outside(weight: u16) -> bool
    ensures { IsTrue result ↔ ((0 < weight) × (weight < modulus) → ⊥) }
{
    weight == 0 || Residue::MODULUS <= u64::from(weight)
}

// Tells whether every weight is in range. Counts instead of stopping early, so that the loop vectorizes.
fn none_outside(weights: &[u16]) -> bool
    requires { length weights.now ≤ 4560 }
    ensures { IsTrue result
        → Every (length weights.now)
        (λ x. (0 < get_or weights.now x 0) × (get_or weights.now x 0 < modulus)) }
{
    let mut found: u16 = 0;
    for weight in weights {
        found += u16::from(is_outside(*weight));
    }
    found == 0
}

// Finds the first weight that is out of range.
fn find_outside(weights: &[u16]) -> Option<usize>
    ensures { Finds (length weights.now) (λ x. (0 < get_or weights.now x 0) × (get_or weights.now x 0 < modulus) → ⊥) result }
{
    weights.iter().position(|weight| is_outside(*weight))
}

// Finds the first weight that is 0 or not below the modulus, with a shortcut if every weight is in range.
fn first_outside(graph: Graph) -> Option<usize>
    ensures { finding_of result ≡ (bad_weight modulus (graph_is graph.entry)).finding }
{
    let weights = &graph.weights[..pair_count(graph.size)];
    if none_outside(weights) {
        None
    } else {
        find_outside(weights)
    }
}

// Judges causes 3 and 4.
fn judge_graph(graph: Graph) -> Result<(), Refusal>
    ensures { let g = graph_is graph.entry in
        ruling_of result ≡ judge (bad_cell g ∷ bad_weight modulus g ∷ []) }
{
    if let Some(cell) = first_fault(graph) {
        return Err(refusals::because_cell(cell));
    }
    match first_outside(graph) {
        None => Ok(()),
        Some(index) => Err(refusals::because(Cause::WeightOutOfRange, index)),
    }
}

// Judges cause 2 by the lengths of buffers 5 and 6, which only opening is lent.
fn judge_besides(n: usize, witness: usize, work: usize) -> Result<(), Refusal>
    requires { n ≤ largest }
    ensures { ruling_of result ≡ judge (too_short (lent_besides n witness work) ∷ []) }
{
    if witness < n {
        return Err(refusals::too_short(Buffer::Witness));
    }
    if work < n * n {
        return Err(refusals::too_short(Buffer::Work));
    }
    Ok(())
}

// Judges causes 1 and 2 for opening, by n and the lengths of buffers 1 to 6.
pub fn judge_room(n: usize, lengths: Lengths, witness: usize, work: usize) -> Result<(), Refusal>
    ensures { ruling_of result ≡ judge
        (too_large n ∷ too_short (lent_always n lengths.adjacency lengths.weights lengths.inverse lengths.sequence ++ lent_besides n witness work) ∷ []) }
{
    judge_lengths(n, lengths)?;
    judge_besides(n, witness, work)
}

// Judges causes 1 to 4 for a session call; inverse, sequence and kept are the lengths of these buffers.
pub fn judge_session<'a>(
    n: usize,
    adjacency: &'a [u8],
    weights: &'a [u16],
    inverse: usize,
    sequence: usize,
    kept: usize,
) -> Result<Graph<'a>, Refusal>
    ensures ruling { let g = over n adjacency.now weights.now in
        ruling_of result ≡ judge
        (opening_causes modulus g
        (lent_always n (length adjacency.now) (length weights.now) inverse sequence ++ lent_kept n kept ∷ [])) }
    ensures lent { IfOk result (λ g. IsLent n adjacency.now weights.now g) }
{
    let lengths = Lengths {
        adjacency: adjacency.len(),
        weights: weights.len(),
        inverse,
        sequence,
    };
    judge_lengths(n, lengths)?;
    if kept < n {
        return Err(refusals::too_short(Buffer::Kept));
    }
    let graph = Graph {
        size: n,
        adjacency,
        weights,
    };
    judge_graph(graph)?;
    Ok(graph)
}

// Judges causes 1 to 4 for opening; inverse, sequence, witness and work are the lengths of these buffers.
#[tactic(auto, unfolding(matching::specs::Causes::opening_ruling))]
pub fn judge_opening<'a>(
    n: usize,
    adjacency: &'a [u8],
    weights: &'a [u16],
    inverse: usize,
    sequence: usize,
    witness: usize,
    work: usize,
) -> Result<Graph<'a>, Refusal>
    ensures ruling { let g = over n adjacency.now weights.now in
        ruling_of result ≡ opening_ruling modulus g inverse sequence witness work }
    ensures lent { IfOk result (λ g. IsLent n adjacency.now weights.now g) }
{
    let lengths = Lengths {
        adjacency: adjacency.len(),
        weights: weights.len(),
        inverse,
        sequence,
    };
    judge_lengths(n, lengths)?;
    judge_besides(n, witness, work)?;
    let graph = Graph {
        size: n,
        adjacency,
        weights,
    };
    judge_graph(graph)?;
    Ok(graph)
}
