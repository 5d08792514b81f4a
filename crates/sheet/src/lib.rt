// Reading a sheet: the graph that the records of its bytes describe, or a refusal.
#![tactic(auto)]

ghost use Rattle.std.specs.Prelude.{◌≡◌, [], ◌≤◌};
ghost use Rattle.lists.specs.Table.{Square};
ghost use Rattle.matching.specs.Edition.{first_edition};
ghost use Rattle.matching.specs.Graph.{largest};
ghost use Rattle.matching.specs.Filling.{cells};
ghost use Rattle.matching.specs.Records.{start, sized, FillsFrom};
ghost use Rattle.filling.specs.Meaning.{read_of};
ghost use Rattle.sheet.specs.Headed.{Heads};
ghost use Rattle.sheet.specs.Continued.{Continues};

use due::Due;
use filling::Extent;
use records::Record;
use refusals::{Cause, Refusal};

// What the first two records say, and the offset after them.
#[derive(Clone, Copy)]
pub struct Head {
    pub size: usize,
    pub seed: u32,
    pub next: usize,
}

// Reads the seed record at offset at of bytes, after a size record of n.
fn read_seed(bytes: &[u8], at: usize, n: usize) -> Result<Head, Refusal>
    requires { n ≤ largest }
    ensures { Heads first_edition bytes.now (sized n) at result }
{
    let Record::Seed(seed) = due::found_at(bytes, at, Due::Seed)? else {
        return Err(refusals::because(Cause::KindNotDue, at));
    };
    Ok(Head {
        size: n,
        seed,
        next: at + 5,
    })
}

// Reads the size record at offset at of bytes, and the seed record after it.
fn read_head(bytes: &[u8], at: usize) -> Result<Head, Refusal>
    ensures { Heads first_edition bytes.now start at result }
{
    let Record::Size(n) = due::found_at(bytes, at, Due::Size)? else {
        return Err(refusals::because(Cause::KindNotDue, at));
    };
    if n > checks::LARGEST {
        return Err(refusals::because(Cause::SizeTooLarge, at));
    }
    read_seed(bytes, at + 2, n)
}

// Reads the records of bytes from offset next on, which follow the size n and the seed, into table, where every cell is 0 before, and
// writes the graph.
fn read_over(
    bytes: &[u8],
    next: usize,
    n: usize,
    seed: u32,
    table: &mut [u8],
    adjacency: &mut [u8],
    weights: &mut [u16],
) -> Result<Extent, Refusal>
    requires { Square n table.old × (table.old ≡ cells n []) }
    ensures { Continues first_edition bytes.now next n seed adjacency.old weights.old (read_of result)
        adjacency.new weights.new }
{
    let count = edges::read_edges(bytes, next, n, table)?;
    filling::write_graph(n, seed, count, table, adjacency, weights)
}

// Calls read_over with a table of its own: adjacency may be too short, and stays as it is if the sheet is refused.
fn read_rest(
    bytes: &[u8],
    next: usize,
    n: usize,
    seed: u32,
    adjacency: &mut [u8],
    weights: &mut [u16],
) -> Result<Extent, Refusal>
    requires { n ≤ largest }
    ensures { Continues first_edition bytes.now next n seed adjacency.old weights.old (read_of result)
        adjacency.new weights.new }
{
    // 96 * 96 bytes.
    let mut table = [0u8; 9216];
    let cells = n * n;
    read_over(
        bytes,
        next,
        n,
        seed,
        &mut table[..cells],
        adjacency,
        weights,
    )
}

// Reads bytes from offset at to their end. A graph fills the first cells of adjacency and the first of weights; a refusal leaves both
// as they were.
pub fn read_at(
    bytes: &[u8],
    at: usize,
    adjacency: &mut [u8],
    weights: &mut [u16],
) -> Result<Extent, Refusal>
    ensures { FillsFrom first_edition bytes.now at adjacency.old weights.old (read_of result)
        adjacency.new weights.new }
{
    let head = read_head(bytes, at)?;
    read_rest(bytes, head.next, head.size, head.seed, adjacency, weights)
}
