// Tells whether a buffer has the inverse for a set of vertices: computes the inverse again for these vertices alone, numbered in ascending
// order, and compares word by word. This is exact both ways, since there is only one inverse. The set is a mark for each vertex, not 0 if
// it is in the set.
#![tactic(auto)]

ghost use Rattle.std.specs.Prelude.{◌≡◌, ℕ, ◌*◌, ◌-◌, ◌%◌, ◌≤◌, ◌<◌, length};
ghost use Rattle.lists.specs.Table.{table};
ghost use Rattle.residue.specs.Modulus.{modulus};
ghost use Rattle.skew.specs.Subset.{Subset, marked};
ghost use Rattle.matching.specs.Session.{InverseTable};
ghost use Rattle.graph.specs.Meaning.{graph_is};
ghost use Rattle.sequence.specs.Formed.{Tells};
ghost use Rattle.solve.specs.Solved.{Blank};
ghost use Rattle.compact.specs.Compared.{Listing, Numbered, Comparing, CrossEqual, AllEqual, Stray, RowClear, AllClear};

use graph::Graph;

// The words of a table for 32 vertices, for 64, and for 96.
const SMALL_TABLE: usize = 32 * 32;

const MEDIUM_TABLE: usize = 64 * 64;

const LARGE_TABLE: usize = 96 * 96;

// Lists the marked vertices in ascending order, and returns how many they are.
fn list(marks: &[u8], vertices: &mut [u8]) -> usize
    requires { (length marks.now ≤ 96) × (length vertices.old ≡ length marks.now) }
    ensures { Listing (length marks.now) marks.now vertices.new result }
{
    let mut k = 0;
    // The first k of vertices are the marked vertices below i.
    for (i, mark) in marks.iter().enumerate() {
        vertices[k] = i as u8;
        if *mark != 0 {
            k += 1;
        }
    }
    k
}

// Tells whether the words of inverse at (a, b) and (b, a) are right and its negative.
fn pair_equal(inverse: &[u16], n: usize, a: usize, b: usize, right: u16) -> bool
    requires { (n ≤ 96) × (n * n ≤ length inverse.now) × (a < n) × (b < n) × (right < modulus) }
    ensures { Tells ((table n inverse.now a b ≡ right) × (table n inverse.now b a ≡ (modulus - right) % modulus)) result }
{
    inverse[a * n + b] == right && inverse[b * n + a] == residue::negative(right as u32) as u16
}

// Tells whether row and column i of the matrix in t, from the diagonal on, are those of inverse at the listed vertices.
fn cross_equal(inverse: &[u16], n: usize, vertices: &[u8], t: &[u64], i: usize) -> bool
    requires { Comparing n inverse.now vertices.now t.now × (i < length vertices.now) }
    ensures { Tells (CrossEqual n inverse.now vertices.now t.now i (length vertices.now)) result }
{
    let count = vertices.len();
    let a = vertices[i] as usize;
    if inverse[a * n + a] != 0 {
        return false;
    }
    // The words of row and column i up to j are the same.
    for j in i + 1..count {
        let right = solve::above(t, count, i, j);
        if !pair_equal(inverse, n, a, vertices[j] as usize, right) {
            return false;
        }
    }
    true
}

// Tells whether the whole matrix in t is that of inverse at the listed vertices.
fn all_equal(inverse: &[u16], n: usize, vertices: &[u8], t: &[u64]) -> bool
    requires { Comparing n inverse.now vertices.now t.now }
    ensures { Tells (AllEqual n inverse.now vertices.now t.now (length vertices.now)) result }
{
    (0..vertices.len()).all(|i| cross_equal(inverse, n, vertices, t, i))
}

// Returns 1 if word is not 0 and the mark of its row or its column is 0, else 0.
fn stray(row: u8, column: u8, word: u16) -> u16
    ensures { Stray row column word result }
{
    if row == 0 {
        u16::from(word != 0)
    } else {
        u16::from(word != 0 && column == 0)
    }
}

// Tells whether a row whose vertex has this mark has no stray word. Counts instead of stopping early, so that the loop vectorizes.
fn row_clear(words: &[u16], mark: u8, marks: &[u8]) -> bool
    requires { (length marks.now ≤ 96) × (length words.now ≡ length marks.now) }
    ensures { Tells (RowClear words.now mark marks.now (length marks.now)) result }
{
    let mut strays = 0;
    for (b, word) in words.iter().enumerate() {
        strays += stray(mark, marks[b], *word);
    }
    strays == 0
}

// Tells whether the rows and columns of the unmarked vertices are 0.
fn all_clear(inverse: &[u16], n: usize, marks: &[u8]) -> bool
    requires { (n ≤ 96) × (n * n ≤ length inverse.now) × (length marks.now ≡ n) }
    ensures { Tells (AllClear n inverse.now marks.now n) result }
{
    // The rows before a are clear.
    for (a, mark) in marks.iter().enumerate() {
        let at = a * n;
        if !row_clear(&inverse[at..at + n], *mark, marks) {
            return false;
        }
    }
    true
}

// Tells whether inverse is the inverse for the marked vertices, which is computed in t, a table of zeros.
fn is_inverse_over(
    graph: Graph,
    marks: &[u8],
    inverse: &[u16],
    vertices: &[u8],
    t: &mut [u64],
) -> bool
    requires sizes { (length marks.now ≡ graph.size) × (graph.size * graph.size ≤ length inverse.now) }
    requires numbered { Numbered graph.size marks.now vertices.now × Blank (length vertices.now) t.old }
    ensures { Tells (InverseTable modulus (graph_is graph.entry) (marked marks.now) inverse.now) result }
{
    let count = vertices.len();
    let mut waiting = [1u8; 96];
    tutte::fill_listed(graph, vertices, t);
    match exchange::run(t, count, &mut waiting[..count]) {
        None => {
            all_clear(inverse, graph.size, marks) && all_equal(inverse, graph.size, vertices, t)
        }
        Some(_) => false,
    }
}

// Calls is_inverse_over with a table of CELLS words. Each size is a function of its own, so that the compiler can put the tables in the same
// place.
#[inline(never)]
fn is_inverse_within<const CELLS: usize>(
    graph: Graph,
    marks: &[u8],
    inverse: &[u16],
    vertices: &[u8],
) -> bool
    requires sizes { (length marks.now ≡ graph.size) × (graph.size * graph.size ≤ length inverse.now) }
    requires numbered { Numbered graph.size marks.now vertices.now × (length vertices.now * length vertices.now ≤ CELLS) × (CELLS ≤ 9216) }
    ensures { Tells (InverseTable modulus (graph_is graph.entry) (marked marks.now) inverse.now) result }
{
    let cells = vertices.len() * vertices.len();
    let mut t = [0u64; CELLS];
    is_inverse_over(graph, marks, inverse, vertices, &mut t[..cells])
}

// Calls is_inverse_within with the smallest table that is large enough: one for few vertices takes less time to clear.
fn is_inverse_of(graph: Graph, marks: &[u8], inverse: &[u16], vertices: &[u8]) -> bool
    requires sizes { (length marks.now ≡ graph.size) × (graph.size * graph.size ≤ length inverse.now) }
    requires numbered { Numbered graph.size marks.now vertices.now }
    ensures { Tells (InverseTable modulus (graph_is graph.entry) (marked marks.now) inverse.now) result }
{
    let cells = vertices.len() * vertices.len();
    if cells <= SMALL_TABLE {
        is_inverse_within::<SMALL_TABLE>(graph, marks, inverse, vertices)
    } else if cells <= MEDIUM_TABLE {
        is_inverse_within::<MEDIUM_TABLE>(graph, marks, inverse, vertices)
    } else {
        is_inverse_within::<LARGE_TABLE>(graph, marks, inverse, vertices)
    }
}

// Tells whether inverse is the inverse for the marked vertices.
pub fn is_inverse(graph: Graph, marks: &[u8], inverse: &[u16]) -> bool
    requires { (length marks.now ≡ graph.size) × (graph.size * graph.size ≤ length inverse.now) }
    ensures { let g = graph_is graph.entry in
        ((S : Subset) → ((i : ℕ) → i < g.n → S i ≡ marked marks.now i)
        → Tells (InverseTable modulus g S inverse.now) result) }
{
    let mut vertices = [0u8; 96];
    let k = list(marks, &mut vertices[..graph.size]);
    is_inverse_of(graph, marks, inverse, &vertices[..k])
}
