// The column that borders the inverse of a skew matrix on a set of indices when one is added: the inverse applied to that index's column.
#![tactic(auto)]

ghost use Rattle.std.specs.Prelude.{◌≡◌, ◌*◌, ◌%◌, ◌≤◌, ◌<◌, length};
ghost use Rattle.lists.specs.Values.{list_of};
ghost use Rattle.lists.specs.Table.{vector, table, Square};
ghost use Rattle.modular.specs.Sum.{sum};
ghost use Rattle.residue.specs.Modulus.{modulus};
ghost use Rattle.skew.specs.Inverse.{apply};
ghost use Rattle.border.specs.Column.{Bordered};

use residue::Residue;

// Returns the sum of the products of u and v, at most 96 words each, reduced once. Every product of this crate is formed here, in 64 bits.
pub fn dot(u: &[u16], v: &[u16]) -> u16
    requires { (length u.now ≡ length v.now) × (length u.now ≤ 96) }
    ensures { result ≡ sum (length u.now) (λ k. vector u.now k * vector v.now k) % modulus }
{
    let mut total: u64 = 0;
    for (a, b) in u.iter().zip(v) {
        total += *a as u64 * *b as u64;
    }
    Residue::make(total).value
}

// Sets x to T v, reduced.
fn image(t: &[u16], n: usize, v: &[u16], x: &mut [u16])
    requires { Square n t.now × (length v.now ≡ n) × (length x.old ≡ n) }
    ensures { x.new ≡ list_of (length x.old)
        (λ k. apply n (table n t.now) (vector v.now) k % modulus) }
{
    for (i, word) in x.iter_mut().enumerate() {
        let at = i * n;
        let end = at + n;
        *word = dot(&t[at..end], v);
    }
}

// Sets x to T v, reduced, but to -1 at a. If v is the column of a, this borders the inverse T when a is added to its set.
pub fn border(t: &[u16], n: usize, v: &[u16], a: usize, x: &mut [u16])
    requires { Square n t.now × (length v.now ≡ n) × (a < n) × (length x.old ≡ n) }
    ensures { Bordered modulus n t.now v.now a x.new }
{
    image(t, n, v, x);
    x[a] = Residue::MINUS_ONE.value;
}
