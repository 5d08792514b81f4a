// Symmetric exchange of the indices of a skew matrix of residues, two at a time, to the end. Only the words above the diagonal of the
// square table count.
#![tactic(auto)]

ghost use Rattle.std.specs.Prelude.{◌≡◌, length};
ghost use Rattle.lists.specs.Table.{Square};
ghost use Rattle.skew.specs.Subset.{Subset, marked};
ghost use Rattle.skew.specs.Inverse.{Matrix};
ghost use Rattle.pivot.specs.Words.{Small};
ghost use Rattle.exchange.specs.Run.{Weight, TurnReady, Found, Turned, Holds, Bounded, Passing, Ended, Advanced};

use residue::Residue;

// Returns the residue of w if the index waits, else 0.
fn weight(waits: u8, w: u64) -> u64
    ensures { Weight waits w result }
{
    if waits == 0 {
        return 0;
    }
    Residue::make(w).value as u64
}

// Finds the lowest partner of c: an index after c that waits and whose entry in row c is not 0.
fn partner(t: &[u64], n: usize, c: usize, waiting: &[u8]) -> Option<usize>
    requires { TurnReady n c t.now waiting.now }
    ensures { Found n c t.now waiting.now result }
{
    for r in c + 1..n {
        if weight(waiting[r], t[c * n + r]) != 0 {
            return Some(r);
        }
    }
    None
}

// Exchanges c with its lowest partner and returns the partner; then neither waits. Returns None if c has no partner, and c if it does not
// wait. x and y are room for two columns.
fn turn(
    t: &mut [u64],
    n: usize,
    c: usize,
    waiting: &mut [u8],
    x: &mut [u64],
    y: &mut [u64],
) -> Option<usize>
    requires { TurnReady n c t.old waiting.old × (length x.old ≡ n) × (length y.old ≡ n) }
    ensures { Turned n c t.old waiting.old t.new waiting.new result }
{
    if waiting[c] == 0 {
        return Some(c);
    }
    let r = partner(t, n, c, waiting)?;
    pivot::exchange(t, n, c, r, x, y);
    waiting[c] = 0;
    waiting[r] = 0;
    Some(r)
}

// Exchanges the indices that wait, from index first on, up to one that has no partner, and returns that one; None if every one has a
// partner. The only caller of turn, so that the compiler can inline it.
fn advance(t: &mut [u64], n: usize, first: usize, waiting: &mut [u8]) -> Option<usize>
    requires { Bounded n first t.old waiting.old }
    ensures { Advanced n first t.old waiting.old t.new waiting.new result }
{
    let mut x = [0u64; 96];
    let mut y = [0u64; 96];
    let (x, y) = (&mut x[..n], &mut y[..n]);
    // No index from first up to c waits.
    for c in first..n {
        if turn(t, n, c, waiting, x, y).is_none() {
            return Some(c);
        }
    }
    None
}

// Exchanges the indices that wait, to the end, or to the first dependent column, and returns that one. The contract is about any skew matrix
// that the table holds on the set of these indices; outside the set the table holds 0.
pub fn run(t: &mut [u64], n: usize, waiting: &mut [u8]) -> Option<usize>
    requires { Square n t.old × Small 65536 n t.old × (length waiting.old ≡ n) }
    ensures { (A : Matrix) → Holds n A (marked waiting.old) t.old
        → Ended n A (marked waiting.old) t.new waiting.new result }
{
    advance(t, n, 0, waiting)
}

// Goes on after a dependent column: exchanges the indices that wait, from index first on, and passes those that have no partner. Then the
// indices of the set that still wait are exactly those that are not kept, and the table holds the inverse on the kept ones.
pub fn rest(t: &mut [u64], n: usize, first: usize, waiting: &mut [u8])
    requires { Bounded n first t.old waiting.old }
    ensures { (A : Matrix) (S : Subset) → Passing n A S first t.old waiting.old
        → Passing n A S n t.new waiting.new }
{
    let mut i = first;
    // An index below i that waits has no partner.
    while let Some(f) = advance(t, n, i, waiting) {
        i = f + 1;
    }
}
