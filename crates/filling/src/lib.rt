// What both readers do: mark an edge in a table of their own, and write a graph that has been read: cause 2, and the two tables.
#![tactic(auto)]

ghost use Rattle.lists.specs.Table.{Square};
ghost use Rattle.matching.specs.Edition.{first_edition};
ghost use Rattle.filling.specs.Marked.{Marked};
ghost use Rattle.filling.specs.Meaning.{read_of};
ghost use Rattle.filling.specs.Written.{Writes};

use refusals::{Buffer, Refusal};

// The number of vertices of a graph, and of its edges.
#[derive(Clone, Copy)]
pub struct Extent {
    pub size: usize,
    pub edges: usize,
}

// An edge is marked, was marked before, or is not one of two vertices.
#[derive(Clone, Copy)]
pub enum Mark {
    New,
    Old,
    Refused,
}

// Marks a and b as adjacent in both cells of table, if they are two of n vertices and not yet marked.
pub fn mark_edge(n: usize, a: usize, b: usize, table: &mut [u8]) -> Mark
    requires { Square n table.old }
    ensures { Marked n a b table.old result table.new }
{
    if n <= a || n <= b || a == b {
        return Mark::Refused;
    }
    let cell = a * n + b;
    let mirror = b * n + a;
    if table[cell] != 0 {
        return Mark::Old;
    }
    table[cell] = 1;
    table[mirror] = 1;
    Mark::New
}

// Writes table to adjacency and the draws of seed to weights, if both are long enough for n vertices.
pub fn write_graph(
    n: usize,
    seed: u32,
    count: usize,
    table: &[u8],
    adjacency: &mut [u8],
    weights: &mut [u16],
) -> Result<Extent, Refusal>
    requires { Square n table.now }
    ensures { Writes first_edition n seed count table.now adjacency.old weights.old (read_of result)
        adjacency.new weights.new }
{
    let cells = n * n;
    if adjacency.len() < cells {
        return Err(refusals::too_short(Buffer::Adjacency));
    }
    let pairs = checks::weights_needed(n);
    if weights.len() < pairs {
        return Err(refusals::too_short(Buffer::Weights));
    }
    adjacency[..cells].copy_from_slice(table);
    draws::fill(&mut weights[..pairs], seed);
    Ok(Extent {
        size: n,
        edges: count,
    })
}
