// Checks a session's sequence of pairs and its kept row, cause 5 of document 01's table, and marks the kept vertices that its pairs leave
// unmatched: a byte for each vertex, not 0 if it is unmatched.
#![tactic(auto)]

ghost use Rattle.std.specs.Prelude.{◌≡◌, ◌+◌, ◌≤◌, length};
ghost use Rattle.skew.specs.Subset.{marked};
ghost use Rattle.sequence.specs.Formed.{AdjacencyFits, Tells, PairFits, Taken, UnusedFrom, Bits, Formed};

// The byte of an unused place.
pub const UNUSED: u8 = 255;

// Tells whether a and b are a pair in order: a < b < n, adjacent, and both marked.
fn fits(n: usize, adjacency: &[u8], marks: &[u8], a: usize, b: usize) -> bool
    requires { AdjacencyFits n adjacency.now × (length marks.now ≡ n) }
    ensures { Tells (PairFits n adjacency.now marks.now a b) result }
{
    a < b && b < n && adjacency[a * n + b] == 1 && marks[a] != 0 && marks[b] != 0
}

// Removes the marks of the first made pairs, as long as the pairs are in order, and tells whether all of them are.
fn take_pairs(n: usize, adjacency: &[u8], sequence: &[u8], made: usize, marks: &mut [u8]) -> bool
    requires { AdjacencyFits n adjacency.now × (made + made ≤ n) × (n ≤ length sequence.now) × (length marks.old ≡ n) }
    ensures { Taken n (marked marks.old) adjacency.now sequence.now made marks.new result }
{
    // The pairs so far are in order, and the marks are those of the vertices that they leave unmatched.
    for pair in sequence[..made + made].chunks_exact(2) {
        let a = pair[0] as usize;
        let b = pair[1] as usize;
        if !fits(n, adjacency, marks, a, b) {
            return false;
        }
        marks[a] = 0;
        marks[b] = 0;
    }
    true
}

// Tells whether the bytes from start up to n are unused.
fn unused_from(sequence: &[u8], start: usize, n: usize) -> bool
    requires { n ≤ length sequence.now }
    ensures { Tells (UnusedFrom sequence.now start n) result }
{
    sequence[..n].iter().skip(start).all(|byte| *byte == UNUSED)
}

// Tells whether every byte of row is 0 or 1.
fn only_bits(row: &[u8]) -> bool
    ensures { Tells (Bits row.now) result }
{
    row.iter().all(|byte| *byte <= 1)
}

// Tells whether a sequence with made pairs is well formed, and the first n bytes of the kept row are 0 or 1, and 1 for each matched vertex; if
// so, the marks are those of the kept vertices that are unmatched.
pub fn formed(
    n: usize,
    adjacency: &[u8],
    sequence: &[u8],
    made: usize,
    kept: &[u8],
    marks: &mut [u8],
) -> bool
    requires { AdjacencyFits n adjacency.now × (n ≤ length sequence.now) × (n ≤ length kept.now) × (length marks.old ≡ n) }
    ensures { Formed n adjacency.now sequence.now made kept.now marks.new result }
{
    if n / 2 < made || !only_bits(&kept[..n]) {
        return false;
    }
    marks.copy_from_slice(&kept[..n]);
    take_pairs(n, adjacency, sequence, made, marks) && unused_from(sequence, made + made, n)
}
