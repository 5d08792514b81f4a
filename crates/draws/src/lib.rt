// The draw roll of document 01: states of 32 bits, each computed from the one before, and the draw of each state, which serves as a weight.
#![tactic(auto)]

ghost use Rattle.std.specs.Prelude.{◌≡◌, ◌*◌, ◌%◌, ◌^◌, length};
ghost use Rattle.draws.specs.Draws.{next, draw, draws};

use residue::Residue;

// Multiplies a and b modulo 2^32.
fn wrapping_mul(a: u32, b: u32) -> u32
    ensures { result ≡ (a * b) % 2 ^ 32 }
{
    a.wrapping_mul(b)
}

// Returns the state that follows state.
pub fn next(state: u32) -> u32
    ensures { result ≡ next state }
{
    wrapping_mul(1664525, state).wrapping_add(1013904223)
}

// Returns the draw of state: a number from 1 to the modulus less 1.
pub fn draw(state: u32) -> u16
    ensures { result ≡ draw state }
{
    (1 + (state / 65536) % (Residue::MODULUS as u32 - 1)) as u16
}

// Fills words with the first draws from seed, in order.
pub fn fill(words: &mut [u16], seed: u32)
    ensures { words.new ≡ draws draw seed (length words.old) }
{
    let mut state = seed;
    // state is that of the word before, and each word is the draw of the next one.
    for word in words.iter_mut() {
        state = next(state);
        *word = draw(state);
    }
}
