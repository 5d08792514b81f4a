// Appends a pair to the pairs made, or removes the newest: in the inverse, by the update of rank two, in the sequence of pairs, and in the
// marks of the unmatched vertices.
#![tactic(auto)]

ghost use Rattle.std.specs.Prelude.{◌≡◌, ◌<◌, length, min, max};
ghost use Rattle.lists.specs.Values.{list_of};
ghost use Rattle.lists.specs.Table.{table, Square};
ghost use Rattle.residue.specs.Modulus.{modulus};
ghost use Rattle.matching.specs.Pairs.{pair_of};
ghost use Rattle.graph.specs.Meaning.{graph_is};
ghost use Rattle.pairing.specs.Appended.{pair_is, Shrunk, AppendRoom, Appended};
ghost use Rattle.pairing.specs.Removed.{Grows, Removed};

use graph::Graph;
use residue::Residue;
use sequence::UNUSED;

// Two different vertices, the smaller first.
#[derive(Clone, Copy)]
pub struct Pair {
    pub smaller: usize,
    pub larger: usize,
}

// Returns the pair of a and b, which are named in either order.
fn ordered(a: usize, b: usize) -> Pair
    ensures pair { pair_is result ≡ pair_of a b }
    ensures least { result.smaller ≡ min a b }
    ensures greatest { result.larger ≡ max a b }
{
    Pair {
        smaller: a.min(b),
        larger: a.max(b),
    }
}

// Copies column c of t to x.
fn column(t: &[u16], n: usize, c: usize, x: &mut [u16])
    requires { Square n t.now × (c < n) × (length x.old ≡ n) }
    ensures { x.new ≡ list_of (length x.old) (λ k. table n t.now k c) }
{
    for (k, word) in x.iter_mut().enumerate() {
        *word = t[k * n + c];
    }
}

// Updates t by its columns a and b; x and y are room for them.
fn shrink_over(t: &mut [u16], n: usize, a: usize, b: usize, x: &mut [u16], y: &mut [u16])
    requires { Square n t.old × (a < n) × (b < n) × (length x.old ≡ n) × (length y.old ≡ n) }
    ensures { Shrunk modulus n a b t.old t.new }
{
    column(t, n, a, x);
    column(t, n, b, y);
    let g = Residue::make(y[a] as u64).invert();
    update::update(t, n, x, y, g.value);
}

// Turns t, the inverse for a set of vertices, into the inverse for the set without a and b.
fn shrink(t: &mut [u16], n: usize, a: usize, b: usize)
    requires { Square n t.old × (a < n) × (b < n) }
    ensures { Shrunk modulus n a b t.old t.new }
{
    let mut x = [0u16; 96];
    let mut y = [0u16; 96];
    shrink_over(t, n, a, b, &mut x[..n], &mut y[..n]);
}

// Appends the pair of a and b, which may be matched, and returns it.
pub fn append(
    n: usize,
    made: usize,
    inverse: &mut [u16],
    sequence: &mut [u8],
    marks: &mut [u8],
    a: usize,
    b: usize,
) -> Pair
    requires { AppendRoom n made inverse.old sequence.old marks.old a b }
    ensures { Appended modulus n made a b inverse.old sequence.old marks.old (pair_is result)
        inverse.new sequence.new marks.new }
{
    let cells = n * n;
    shrink(&mut inverse[..cells], n, a, b);
    let pair = ordered(a, b);
    let at = made + made;
    sequence[at] = pair.smaller as u8;
    sequence[at + 1] = pair.larger as u8;
    marks[pair.smaller] = 0;
    marks[pair.larger] = 0;
    pair
}

// Updates t by the columns that border it, with room for both and for a column of the matrix. Tells whether the set with a and b has an
// inverse; if it has none, t stays as it is.
fn grow_over(
    graph: Graph,
    t: &mut [u16],
    a: usize,
    b: usize,
    column: &mut [u16],
    x: &mut [u16],
    y: &mut [u16],
) -> bool
    requires square { Square graph.size t.old × (a < graph.size) × (b < graph.size) }
    requires column_len { (length column.old ≡ graph.size) × (length x.old ≡ graph.size) × (length y.old ≡ graph.size) }
    ensures { Grows modulus (graph_is graph.entry) a b t.old result t.new }
{
    let n = graph.size;
    tutte::column(graph, a, column);
    border::border(t, n, column, a, x);
    tutte::column(graph, b, column);
    border::border(t, n, column, b, y);
    // The matrix is skew, so column b against x is minus row b against x.
    let d = border::dot(column, x);
    if d == 0 {
        return false;
    }
    let g = Residue::make(d as u64).invert().negate();
    update::update(t, n, x, y, g.value);
    true
}

// Turns t, the inverse for a set of vertices, into the inverse for the set with a and b. Tells whether there is one.
fn grow(graph: Graph, t: &mut [u16], a: usize, b: usize) -> bool
    requires { Square graph.size t.old × (a < graph.size) × (b < graph.size) }
    ensures { Grows modulus (graph_is graph.entry) a b t.old result t.new }
{
    let n = graph.size;
    let mut column = [0u16; 96];
    let mut x = [0u16; 96];
    let mut y = [0u16; 96];
    grow_over(graph, t, a, b, &mut column[..n], &mut x[..n], &mut y[..n])
}

// Removes the newest pair a, b, which leaves made pairs. Tells whether the vertices then unmatched have an inverse; if they have none,
// writes nothing.
pub fn remove(
    graph: Graph,
    made: usize,
    inverse: &mut [u16],
    sequence: &mut [u8],
    marks: &mut [u8],
    a: usize,
    b: usize,
) -> bool
    requires { AppendRoom graph.size made inverse.old sequence.old marks.old a b }
    ensures { Removed modulus (graph_is graph.entry) made a b inverse.old sequence.old marks.old result
        inverse.new sequence.new marks.new }
{
    let cells = graph.size * graph.size;
    if !grow(graph, &mut inverse[..cells], a, b) {
        return false;
    }
    let at = made + made;
    sequence[at] = UNUSED;
    sequence[at + 1] = UNUSED;
    marks[a] = 1;
    marks[b] = 1;
    true
}
