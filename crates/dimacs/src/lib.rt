// Reading a graph in the DIMACS edge format: the graph that the lines of a text describe, with the draws of a seed as its weights, or a
// refusal.
#![tactic(auto)]

ghost use Rattle.std.specs.Prelude.{◌≡◌, [], ◌+◌, ◌≤◌};
ghost use Rattle.lists.specs.Table.{Square};
ghost use Rattle.matching.specs.Edition.{first_edition};
ghost use Rattle.matching.specs.Graph.{largest};
ghost use Rattle.matching.specs.Filling.{cells};
ghost use Rattle.matching.specs.Dimacs.{FillsText};
ghost use Rattle.filling.specs.Meaning.{read_of};
ghost use Rattle.dimacs.specs.Continued.{Continues};

use filling::Extent;
use refusals::{Cause, Refusal};

// Reads the lines of bytes from offset next on, which follow a `p` line of n vertices and announced `e` lines, into table, where every cell
// is 0 before, and writes the graph. line is the number of the line at next.
fn read_over(
    bytes: &[u8],
    next: usize,
    line: usize,
    n: usize,
    announced: usize,
    seed: u32,
    table: &mut [u8],
    adjacency: &mut [u8],
    weights: &mut [u16],
) -> Result<Extent, Refusal>
    requires { Square n table.old × (table.old ≡ cells n []) × (line ≤ next + 1) }
    ensures { Continues first_edition bytes.now next line n announced seed adjacency.old weights.old (read_of result)
        adjacency.new weights.new }
{
    let count = edge_lines::read_edges(bytes, next, line, n, table)?;
    if count.lines != announced {
        return Err(refusals::because(Cause::LineCountWrong, 0));
    }
    filling::write_graph(n, seed, count.edges, table, adjacency, weights)
}

// Calls read_over with a table of its own: adjacency may be too short, and stays as it is if the text is refused.
fn read_rest(
    bytes: &[u8],
    next: usize,
    line: usize,
    n: usize,
    announced: usize,
    seed: u32,
    adjacency: &mut [u8],
    weights: &mut [u16],
) -> Result<Extent, Refusal>
    requires { (n ≤ largest) × (line ≤ next + 1) }
    ensures { Continues first_edition bytes.now next line n announced seed adjacency.old weights.old (read_of result)
        adjacency.new weights.new }
{
    // 96 * 96 bytes.
    let mut table = [0u8; 9216];
    let cells = n * n;
    read_over(
        bytes,
        next,
        line,
        n,
        announced,
        seed,
        &mut table[..cells],
        adjacency,
        weights,
    )
}

// Reads bytes, a whole text. A graph fills the first cells of adjacency, and the draws of seed the first of weights; a refusal leaves both
// as they were.
pub fn read(
    bytes: &[u8],
    seed: u32,
    adjacency: &mut [u8],
    weights: &mut [u16],
) -> Result<Extent, Refusal>
    ensures { FillsText first_edition seed bytes.now adjacency.old weights.old (read_of result)
        adjacency.new weights.new }
{
    let head = edge_lines::read_head(bytes)?;
    read_rest(
        bytes,
        head.next,
        head.line,
        head.size,
        head.announced,
        seed,
        adjacency,
        weights,
    )
}
