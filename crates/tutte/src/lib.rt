// The Tutte matrix of a graph in order: one of its columns, or its entries above the diagonal as a table of words. The table is for a set
// of vertices, given by a byte for each vertex that is not 0 for those in it, or for listed vertices alone.
#![tactic(auto)]

ghost use Rattle.std.specs.Prelude.{◌≡◌, ℕ, ◌+◌, ◌*◌, ◌<◌, length};
ghost use Rattle.lists.specs.Values.{list_of};
ghost use Rattle.lists.specs.Table.{Square};
ghost use Rattle.residue.specs.Modulus.{modulus};
ghost use Rattle.skew.specs.Subset.{marked};
ghost use Rattle.skew.specs.Inverse.{Matrix};
ghost use Rattle.matching.specs.Graph.{tutte};
ghost use Rattle.graph.specs.Meaning.{graph_is};
ghost use Rattle.tutte.specs.Table.{restricted, listed, Ascending, row_of, Filled};

use graph::Graph;
use residue::Residue;

// Returns the weight of i < j if they are adjacent and both in set, else 0.
fn entry(graph: Graph, set: &[u8], i: usize, j: usize) -> u16
    requires set_len { length set.now ≡ graph.size }
    requires i_lt_j { (i < j) × (j < graph.size) }
    ensures { result ≡ restricted (graph_is graph.entry) (marked set.now) i j }
{
    if set[i] == 0 || set[j] == 0 {
        return 0;
    }
    graph.upper(i, j)
}

// Writes what entry gives for i and each index after it to row.
fn fill_row<F: Fn(usize, usize) -> u16>(n: usize, i: usize, entry: &F, row: &mut [u64])
    requires i_lt_n { (i < n) × (i + 1 + length row.old ≡ n) }
    requires callable { (j : ℕ) → i < j → j < n → F.pre entry.now i j }
    ensures { (E : Matrix) → ((j x : ℕ) → i < j → j < n → F.post entry.now i j x → x ≡ E i j)
        → row.new ≡ row_of E i (length row.old) }
{
    for (k, word) in row.iter_mut().enumerate() {
        *word = entry(i, i + 1 + k) as u64;
    }
}

// Writes what entry gives for each two indices below n, the smaller first, to table; its other words stay as they are.
fn fill_above<F: Fn(usize, usize) -> u16>(n: usize, entry: &F, table: &mut [u64])
    requires square { Square n table.old }
    requires callable { (i j : ℕ) → i < j → j < n → F.pre entry.now i j }
    ensures { (E : Matrix) → ((i j x : ℕ) → i < j → j < n → F.post entry.now i j x → x ≡ E i j)
        → Filled n E n table.old table.new }
{
    for i in 0..n {
        let at = i * n + (i + 1);
        let end = i * n + n;
        fill_row(n, i, entry, &mut table[at..end]);
    }
}

// Writes all entries above the diagonal to table; its other words stay as they are.
pub fn fill(graph: Graph, set: &[u8], table: &mut [u64])
    requires set_len { length set.now ≡ graph.size }
    requires table_len { length table.old ≡ graph.size * graph.size }
    ensures { Filled graph.entry.size (restricted (graph_is graph.entry) (marked set.now)) graph.entry.size table.old table.new }
{
    let restricted = |i: usize, j: usize| entry(graph, set, i, j);
    fill_above(graph.size, &restricted, table);
}

// Writes the entries above the diagonal for vertices, which are listed in ascending order, to a table of their own; its other words stay as
// they are.
pub fn fill_listed(graph: Graph, vertices: &[u8], table: &mut [u64])
    requires ascending { Ascending graph.size vertices.now }
    requires square { Square (length vertices.now) table.old }
    ensures { Filled (length vertices.now) (listed (graph_is graph.entry) vertices.now) (length vertices.now) table.old table.new }
{
    let listed = |i: usize, j: usize| graph.upper(vertices[i] as usize, vertices[j] as usize);
    fill_above(vertices.len(), &listed, table);
}

// Returns entry (i, j) of the whole matrix.
fn whole_entry(graph: Graph, i: usize, j: usize) -> u16
    requires { (i < graph.size) × (j < graph.size) }
    ensures { result ≡ tutte (graph_is graph.entry) modulus i j }
{
    if i < j {
        graph.upper(i, j)
    } else if j < i {
        let above = Residue {
            value: graph.upper(j, i),
        };
        let below = above.negate();
        below.value
    } else {
        0
    }
}

// Writes column c of the whole matrix to x, a word for each row.
pub fn column(graph: Graph, c: usize, x: &mut [u16])
    requires { (c < graph.size) × (length x.old ≡ graph.size) }
    ensures { x.new ≡ list_of (length x.old) (λ k. tutte (graph_is graph.entry) modulus k c) }
{
    for (k, word) in x.iter_mut().enumerate() {
        *word = whole_entry(graph, k, c);
    }
}
