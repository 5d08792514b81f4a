// Lists of calls as numbers, three for each call: whether a list is in order, and which call three numbers are.
#![tactic(auto)]

ghost use Rattle.std.specs.Prelude.{◌≡◌};
ghost use Rattle.matching.specs.Decision.{judge};
ghost use Rattle.matching.specs.Replay.{call_of, call_count, short_index, list_causes};
ghost use Rattle.refusals.specs.Meaning.{ruling_of, Finds};
ghost use Rattle.calls.specs.Meaning.{call_is};
ghost use Rattle.call_list.specs.List.{Unknown};

use calls::Call;
use refusals::{Cause, Refusal};

// Finds the first whole call whose call-kind, its first number, is unknown.
fn first_unknown(list: &[u64]) -> Option<usize>
    ensures { Finds (call_count list.now) (Unknown list.now) result }
{
    list.chunks_exact(3)
        .position(|call| !matches!(call[0], 1..=3))
}

// Returns the index i in 16 bits: 65535 if it is greater.
fn short_index(i: usize) -> usize
    ensures { result ≡ short_index i }
{
    i.min(65535)
}

// Judges whether every call in list has a known call-kind, and the list ends with a whole call.
pub fn judge(list: &[u64]) -> Result<(), Refusal>
    ensures { ruling_of result ≡ judge (list_causes list.now) }
{
    if let Some(i) = first_unknown(list) {
        return Err(refusals::because(Cause::KindNotDue, short_index(i)));
    }
    let count = list.len() / 3;
    if list.len() % 3 != 0 {
        return Err(refusals::because(Cause::CutShort, short_index(count)));
    }
    Ok(())
}

// Returns the call of kind; only a pick uses a and b.
pub fn call(kind: u64, a: usize, b: usize) -> Call
    ensures { call_is result ≡ call_of kind a b }
{
    match kind {
        1 => Call::Pick(a, b),
        2 => Call::Automatic,
        _ => Call::Undo,
    }
}
