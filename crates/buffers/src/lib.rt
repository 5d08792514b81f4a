// Fills the first items of a buffer with one value.
#![tactic(auto)]

ghost use Rattle.std.specs.Prelude.{◌≡◌, ◌++◌, ◌≤◌, length, drop, replicate};

// Sets the first count items to v.
pub fn fill<T: Copy>(items: &mut [T], count: usize, v: T)
    requires { count ≤ length items.old }
    ensures { items.new ≡ replicate count v ++ drop count items.old }
{
    for item in &mut items[..count] {
        *item = v;
    }
}
