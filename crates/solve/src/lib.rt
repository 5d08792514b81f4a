// The inverse of the Tutte matrix of a graph in order, on the kept vertices of a set: those whose rows are not combinations of the rows of the
// set before them. Beside it the witness of the first dependent column, if there is one. The set is a byte for each vertex, not 0 if it is in
// the set; solving makes the bytes of the kept vertices 0.
#![tactic(auto)]

ghost use Rattle.std.specs.Prelude.{◌≡◌, ℕ, ◌+◌, ◌*◌, ◌≤◌, ◌<◌, length};
ghost use Rattle.lists.specs.Values.{list_of};
ghost use Rattle.lists.specs.Table.{Square};
ghost use Rattle.skew.specs.Subset.{Subset, marked};
ghost use Rattle.graph.specs.Meaning.{graph_is};
ghost use Rattle.exchange.specs.Run.{word, witness_word};
ghost use Rattle.solve.specs.Solved.{kept_word, Copied, Blank, Solved};

use graph::Graph;
use residue::Residue;
use std::cmp::Ordering;

// The words of a table for 32 vertices, and for 96.
const SMALL_TABLE: usize = 32 * 32;

const LARGE_TABLE: usize = 96 * 96;

// Returns entry (i, j), where i < j, of the skew matrix that t holds above its diagonal.
pub fn above(t: &[u64], n: usize, i: usize, j: usize) -> u16
    requires { Square n t.now × (i < j) × (j < n) }
    ensures { result ≡ word n t.now i j }
{
    Residue::make(t[i * n + j]).value
}

// Returns entry (i, j), on either side of the diagonal.
fn entry(t: &[u64], n: usize, i: usize, j: usize) -> u16
    requires { Square n t.now × (i < n) × (j < n) }
    ensures { result ≡ word n t.now i j }
{
    match i.cmp(&j) {
        Ordering::Less => above(t, n, i, j),
        Ordering::Equal => 0,
        Ordering::Greater => residue::negative(above(t, n, j, i) as u32) as u16,
    }
}

// Returns entry (m, k), where m < k, or 0 if m or k waits.
fn kept_word(t: &[u64], n: usize, m: usize, k: usize, waiting: &[u8]) -> u16
    requires { Square n t.now × (m < k) × (k < n) × (length waiting.now ≡ n) }
    ensures { result ≡ kept_word n t.now waiting.now m k }
{
    if waiting[m] != 0 || waiting[k] != 0 {
        return 0;
    }
    above(t, n, m, k)
}

// Writes row and column m of inverse from the diagonal on; those before m are already written.
fn write_cross(t: &[u64], n: usize, m: usize, waiting: &[u8], inverse: &mut [u16])
    requires square { Square n t.now × (m < n) × (length waiting.now ≡ n) }
    requires copied { Copied n m (kept_word n t.now waiting.now) inverse.old }
    ensures { Copied n (m + 1) (kept_word n t.now waiting.now) inverse.new }
{
    inverse[m * n + m] = 0;
    for k in m + 1..n {
        let right = kept_word(t, n, m, k, waiting);
        inverse[m * n + k] = right;
        inverse[k * n + m] = residue::negative(right as u32) as u16;
    }
}

// Writes the matrix to inverse, in 16 bits, with 0 in the rows and columns of the vertices that wait.
fn write_inverse(t: &[u64], n: usize, waiting: &[u8], inverse: &mut [u16])
    requires { Square n t.now × (length waiting.now ≡ n) × (length inverse.old ≡ n * n) }
    ensures { Copied n n (kept_word n t.now waiting.now) inverse.new }
{
    for m in 0..n {
        write_cross(t, n, m, waiting, inverse);
    }
}

// Returns the witness at vertex k: entry (f, k) if k does not wait, else 1 at f and 0 elsewhere.
fn witness_word(t: &[u64], n: usize, f: usize, k: usize, waiting: &[u8]) -> u16
    requires { Square n t.now × (f < n) × (k < n) × (length waiting.now ≡ n) }
    ensures { result ≡ witness_word n t.now waiting.now f k }
{
    if waiting[k] == 0 {
        return entry(t, n, f, k);
    }
    u16::from(f == k)
}

fn write_witness(t: &[u64], n: usize, f: usize, waiting: &[u8], witness: &mut [u16])
    requires { Square n t.now × (f < n) × (length waiting.now ≡ n) × (length witness.old ≡ n) }
    ensures { witness.new ≡ list_of n (witness_word n t.now waiting.now f) }
{
    for (k, word) in witness.iter_mut().enumerate() {
        *word = witness_word(t, n, f, k, waiting);
    }
}

// Solves in t, a table of zeros.
fn solve_over(
    graph: Graph,
    set: &mut [u8],
    t: &mut [u64],
    inverse: &mut [u16],
    witness: &mut [u16],
) -> Option<usize>
    requires set_len { length set.old ≡ graph.size }
    requires blank { Blank graph.size t.old }
    requires inverse_len { (length inverse.old ≡ graph.size * graph.size) × (length witness.old ≡ graph.size) }
    ensures { let g = graph_is graph.entry in
        ((S : Subset) → ((i : ℕ) → i < graph.entry.size → S i ≡ marked set.old i)
        → Solved g S result set.new witness.old inverse.new witness.new) }
{
    tutte::fill(graph, set, t);
    let column = exchange::run(t, graph.size, set);
    if let Some(f) = column {
        // The witness is read from the table before exchange goes on.
        write_witness(t, graph.size, f, set, witness);
        exchange::rest(t, graph.size, f + 1, set);
    }
    write_inverse(t, graph.size, set, inverse);
    column
}

// Solves in a table of CELLS words, of which it takes as many as it needs: a smaller table takes less time to clear. Never inlined, so that
// the stack never holds the tables of two sizes.
#[inline(never)]
fn solve_in<const CELLS: usize>(
    graph: Graph,
    set: &mut [u8],
    inverse: &mut [u16],
    witness: &mut [u16],
) -> Option<usize>
    requires set_len { length set.old ≡ graph.size }
    requires cells { (graph.size * graph.size ≤ CELLS) × (CELLS ≤ 9216) }
    requires inverse_len { (length inverse.old ≡ graph.size * graph.size) × (length witness.old ≡ graph.size) }
    ensures { let g = graph_is graph.entry in
        ((S : Subset) → ((i : ℕ) → i < graph.entry.size → S i ≡ marked set.old i)
        → Solved g S result set.new witness.old inverse.new witness.new) }
{
    let mut t = [0u64; CELLS];
    let cells = graph.size * graph.size;
    solve_over(graph, set, &mut t[..cells], inverse, witness)
}

// Writes the inverse for the kept vertices of set, with 0 in the other rows and columns, and makes their bytes 0; the bytes of the other
// vertices of set stay other than 0. If not all are kept, also writes the witness of the first dependent column and returns that column, else
// leaves witness as it was.
pub fn solve(
    graph: Graph,
    set: &mut [u8],
    inverse: &mut [u16],
    witness: &mut [u16],
) -> Option<usize>
    requires set_len { length set.old ≡ graph.size }
    requires inverse_len { (length inverse.old ≡ graph.size * graph.size) × (length witness.old ≡ graph.size) }
    ensures { let g = graph_is graph.entry in
        ((S : Subset) → ((i : ℕ) → i < graph.entry.size → S i ≡ marked set.old i)
        → Solved g S result set.new witness.old inverse.new witness.new) }
{
    if graph.size <= 32 {
        solve_in::<SMALL_TABLE>(graph, set, inverse, witness)
    } else {
        solve_in::<LARGE_TABLE>(graph, set, inverse, witness)
    }
}
