// The skew update of rank two of a square table of residues, T + g (y xᵀ - x yᵀ), row by row.
#![tactic(auto)]

ghost use Rattle.std.specs.Prelude.{◌≡◌, ◌<◌, length};
ghost use Rattle.lists.specs.Values.{list_of};
ghost use Rattle.lists.specs.Table.{vector, Square};
ghost use Rattle.residue.specs.Modulus.{modulus};
ghost use Rattle.update.specs.Rows.{combined, multiple, Updating, UpdatedTo, Updated};

use residue::Residue;

// Adds f times a and h times b to c, and reduces the sum. Every product of this crate is formed here.
fn combine(f: u16, a: u16, h: u16, b: u16, c: u16) -> u16
    ensures { result ≡ combined modulus f a h b c }
{
    let sum = f as u64 * a as u64 + h as u64 * b as u64 + c as u64;
    Residue::make(sum).value
}

// Writes the words of x times g, reduced, to u.
fn multiples(x: &[u16], g: u16, u: &mut [u16])
    requires { length u.old ≡ length x.now }
    ensures { u.new ≡ list_of (length u.old) (multiple modulus g (vector x.now)) }
{
    for (j, word) in u.iter_mut().enumerate() {
        *word = combine(x[j], g, 0, 0, 0);
    }
}

// Reduces a row.
fn reduce_row(row: &mut [u16])
    ensures { row.new ≡ list_of (length row.old) (λ j. combined modulus 0 0 0 0 (vector row.old j)) }
{
    for word in row.iter_mut() {
        *word = combine(0, 0, 0, 0, *word);
    }
}

// Adds f times u and h times v to a row, and reduces it.
fn combine_row(row: &mut [u16], u: &[u16], v: &[u16], f: u16, h: u16)
    requires { (length u.now ≡ length row.old) × (length v.now ≡ length row.old) }
    ensures { row.new ≡ list_of (length row.old)
        (λ j. combined modulus f (vector u.now j) h (vector v.now j) (vector row.old j)) }
{
    for (j, word) in row.iter_mut().enumerate() {
        *word = combine(f, u[j], h, v[j], *word);
    }
}

// combine_row, with a shortcut if f and h are 0.
fn update_row(row: &mut [u16], u: &[u16], v: &[u16], f: u16, h: u16)
    requires { (length u.now ≡ length row.old) × (length v.now ≡ length row.old) }
    ensures { row.new ≡ list_of (length row.old)
        (λ j. combined modulus f (vector u.now j) h (vector v.now j) (vector row.old j)) }
{
    if f == 0 && h == 0 {
        reduce_row(row);
    } else {
        combine_row(row, u, v, f, h);
    }
}

// Adds y(i) times u and x(i) times v to each row i.
fn update_rows(t: &mut [u16], n: usize, x: &[u16], y: &[u16], u: &[u16], v: &[u16])
    requires { Updating n t.old x.now y.now u.now v.now }
    ensures { UpdatedTo modulus n n x.now y.now u.now v.now
        t.old t.new }
{
    for i in 0..n {
        let at = i * n;
        let end = at + n;
        update_row(&mut t[at..end], u, v, y[i], x[i]);
    }
}

// Updates t; u and v are room for the multiples of x and y.
fn update_over(t: &mut [u16], n: usize, x: &[u16], y: &[u16], g: u16, u: &mut [u16], v: &mut [u16])
    requires { Updating n t.old x.now y.now u.old v.old × (g < modulus) }
    ensures { Updated modulus n x.now y.now g t.old t.new }
{
    let negative = residue::negative(g as u32);
    multiples(x, g, u);
    multiples(y, negative as u16, v);
    update_rows(t, n, x, y, u, v);
}

// Adds g (y xᵀ - x yᵀ) to t, and reduces every word.
pub fn update(t: &mut [u16], n: usize, x: &[u16], y: &[u16], g: u16)
    requires { Square n t.old × (length x.now ≡ n) × (length y.now ≡ n) × (g < modulus) }
    ensures { Updated modulus n x.now y.now g t.old t.new }
{
    let mut u = [0u16; 96];
    let mut v = [0u16; 96];
    update_over(t, n, x, y, g, &mut u[..n], &mut v[..n]);
}
