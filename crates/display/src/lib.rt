// The part of the inverse or the witness buffer that shows an opening's answer.
#![tactic(auto)]

ghost use Rattle.std.specs.Prelude.{◌≡◌};
ghost use Rattle.matching.specs.Display.{display, words_of, start_of};
ghost use Rattle.display.specs.Words.{Tells};

use checks::LARGEST;

// Tells whether any word is not 0.
fn any_nonzero(words: &[u16]) -> bool
    ensures { Tells words.now result }
{
    words.iter().any(|word| *word != 0)
}

// Returns the first n words of witness if one of them is not 0, else the first n * n of inverse. If n is above 96 or a buffer is too short,
// returns the empty part at the start of inverse.
pub fn part<'a>(n: usize, inverse: &'a [u16], witness: &'a [u16]) -> &'a [u16]
    ensures words { result.now ≡ words_of (display n inverse.now witness.now) inverse.now witness.now }
    ensures start { result.ref_ptr ≡ start_of (display n inverse.now witness.now) inverse.entry.ref_ptr witness.entry.ref_ptr }
{
    if LARGEST < n || inverse.len() < n * n || witness.len() < n {
        return &inverse[..0];
    }
    if any_nonzero(&witness[..n]) {
        return &witness[..n];
    }
    &inverse[..n * n]
}
