// One exchange of two indices of a skew matrix of residues, in a square table of which only the words above the diagonal count. Words are
// exact up to multiples of the modulus: a word is reduced when it is read, and sums are not reduced.
#![tactic(auto)]

ghost use Rattle.std.specs.Prelude.{◌≡◌, ◌+◌, ◌*◌, ◌-◌, ◌%◌, ◌≤◌, ◌<◌, length, get_or, set};
ghost use Rattle.lists.specs.Table.{vector, Square};
ghost use Rattle.modular.specs.Reciprocal.{Reciprocal};
ghost use Rattle.residue.specs.Modulus.{modulus};
ghost use Rattle.pivot.specs.Words.{limit, Words, Below, place, residue, scaled, plus_two};
ghost use Rattle.pivot.specs.Step.{Taken, Updating, UpdatedTo, Stepping, Columns, Stepped};

use residue::Residue;

// Returns the residue of entry (k, c), and sets the entry to 0.
fn take(t: &mut [u64], n: usize, k: usize, c: usize) -> u64
    requires { Square n t.old × (k < n) × (c < n) }
    ensures { (result ≡ residue k c (get_or t.old (place n k c) 0)) × (t.new ≡ set t.old (place n k c) 0) }
{
    if k < c {
        let at = k * n + c;
        let above = Residue::make(t[at]);
        t[at] = 0;
        return above.value as u64;
    }
    let at = c * n + k;
    let below = Residue::make(t[at]);
    t[at] = 0;
    residue::negative(below.value as u32) as u64
}

// Moves column c to x: its entries, and those of row c, become 0.
fn take_column(t: &mut [u64], n: usize, c: usize, x: &mut [u64])
    requires { Square n t.old × (c < n) × (length x.old ≡ n) }
    ensures { Taken n n c t.old t.new
        × Words (λ k. residue k c (get_or t.old (place n k c) 0)) x.new }
{
    for (k, word) in x.iter_mut().enumerate() {
        *word = take(t, n, k, c);
    }
}

// Multiplies every word of x by h, and reduces it. The words are below 2^16, so the remainder changes nothing; it lets the compiler divide
// by a shorter multiplication.
fn scale(x: &mut [u64], h: u16)
    requires { Below modulus x.old × (h < modulus) }
    ensures { Words (scaled h (vector x.old)) x.new }
{
    for word in x.iter_mut() {
        *word = Residue::make(*word % 65536 * h as u64).value as u64;
    }
}

// Adds a times x and b times y to row, which starts in column lo. The words of x and y are below 2^32, so the remainders change nothing;
// they let the compiler multiply halves.
fn add(row: &mut [u64], lo: usize, x: &[u64], y: &[u64], a: u32, b: u32)
    requires { (lo + length row.old ≤ length x.now) × (lo + length row.old ≤ length y.now) × Below limit row.old
        × Below modulus x.now × Below modulus y.now × (a < modulus) × (b < modulus) }
    ensures { Words (plus_two (vector row.old) lo (vector x.now) (vector y.now) a b) row.new }
{
    if a == 0 && b == 0 {
        return;
    }
    for (j, word) in row.iter_mut().enumerate() {
        let k = lo + j;
        *word += a as u64 * (x[k] % 4294967296) + b as u64 * (y[k] % 4294967296);
    }
}

// Adds x(i) y(j) - y(i) x(j) to every entry (i, j) above the diagonal. A row starts at an even column, on the diagonal or right after it;
// the word on the diagonal does not count. A factor is cut to 32 bits before it is negated, so that the compiler knows its width.
fn update(t: &mut [u64], n: usize, x: &[u64], y: &[u64])
    requires { Updating n t.old x.now y.now }
    ensures { UpdatedTo n n x.now y.now t.old t.new }
{
    for i in 0..n {
        let lo = (i + 1) / 2 * 2;
        let at = i * n + lo;
        let end = i * n + n;
        let a = residue::negative(y[i] as u32);
        let b = x[i] as u32;
        add(&mut t[at..end], lo, x, y, a, b);
    }
}

// Returns the reciprocal of the residue k, and 0 for 0.
fn reciprocal(k: u64) -> u16
    requires { k < modulus }
    ensures { (result < modulus) × Reciprocal modulus k result }
{
    Residue::make(k).invert().value
}

// Moves columns c and r to x and y, each with -1 at its own index and 0 at the other, and returns the reciprocal of entry (r, c).
fn columns(t: &mut [u64], n: usize, c: usize, r: usize, x: &mut [u64], y: &mut [u64]) -> u16
    requires { Stepping n c r t.old × (length x.old ≡ n) × (length y.old ≡ n) }
    ensures { Columns n c r t.old t.new x.new y.new result }
{
    take_column(t, n, c, x);
    let h = reciprocal(x[r]);
    take_column(t, n, r, y);
    x[c] = Residue::MINUS_ONE.value as u64;
    x[r] = 0;
    y[r] = Residue::MINUS_ONE.value as u64;
    h
}

// Exchanges c and r, where c < r; x and y are room for two columns, of which x is multiplied by the reciprocal.
pub fn exchange(t: &mut [u64], n: usize, c: usize, r: usize, x: &mut [u64], y: &mut [u64])
    requires { Stepping n c r t.old × (length x.old ≡ n) × (length y.old ≡ n) }
    ensures { Stepped n c r t.old t.new }
{
    let h = columns(t, n, c, r, x, y);
    scale(x, h);
    update(t, n, x, y);
}
