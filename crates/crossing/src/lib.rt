// The session calls with numbers and byte slices: what the host's entries call. Words cross as two bytes, low first (docs/HOST.md).
#![tactic(auto)]

ghost use Rattle.std.specs.Prelude.{◌≡◌, ◌*◌, ◌≤◌, length};
ghost use Rattle.matching.specs.Edition.{first_edition};
ghost use Rattle.matching.specs.Model as model;
ghost use Rattle.matching.specs.Host.{unpacked_state, HostHandles, HostPickedExactly, handed_back};
ghost use Rattle.matching.specs.Session.{state};
ghost use Rattle.refusals.specs.Meaning.{ruling_of};
ghost use Rattle.calls.specs.Meaning.{call_is};
ghost use Rattle.crossing.specs.HostFits.{room_for, Needed, Unpacked, HostFits};
ghost use Rattle.crossing.specs.HostCall.{HandlesOver};

use calls::Call;
use checks::Lengths;
use refusals::Refusal;
use session::Session;

// Judges causes 1 and 2 by n and the lengths of the host's bytes: buffers 1 to 4.
pub fn judge_bytes(
    n: usize,
    adjacency: &[u8],
    weights: &[u8],
    inverse: &[u8],
    sequence: &[u8],
) -> Result<(), Refusal>
    ensures { ruling_of result ≡ room_for n adjacency.now weights.now inverse.now sequence.now }
{
    let lengths = Lengths {
        adjacency: adjacency.len(),
        weights: weights.len() / 2,
        inverse: inverse.len() / 2,
        sequence: sequence.len(),
    };
    checks::judge_lengths(n, lengths)
}

// Makes a call over lent words, with the session as numbers, and returns the host's number. If the answer is a pair, stores the words of
// table as the bytes of inverse.
fn call_over(
    call: Call,
    n: usize,
    made: usize,
    adjacency: &[u8],
    weights: &[u16],
    table: &mut [u16],
    inverse: &mut [u8],
    sequence: &mut [u8],
    kept: &[u8],
) -> u64
    requires { 2 * length table.old ≤ length inverse.old }
    ensures { let before = state n made adjacency.now weights.now
        table.old sequence.old kept.now in
        HandlesOver before (call_is call) inverse.old result inverse.new sequence.new }
{
    let session = Session { size: n, made };
    let returned = session.call(call, adjacency, weights, table, sequence, kept);
    let number = calls::number(returned.answer, returned.session.made);
    if returned.answer.is_ok() {
        packing::store(table, table.len(), inverse);
    }
    number
}

// Unpacks the words that n vertices need from weights and inverse. There is room for the largest graph: 96 * 95 / 2 weights in values, and
// 96 * 96 words of the inverse in table.
pub fn unpack(n: usize, weights: &[u8], inverse: &[u8], values: &mut [u16], table: &mut [u16])
    requires needed { Needed n weights.now inverse.now }
    requires values_room { length values.old ≡ 4560 }
    requires table_room { length table.old ≡ 9216 }
    ensures { Unpacked n weights.now inverse.now values.new table.new }
{
    let count = checks::weights_needed(n);
    packing::unpack(weights, &mut values[..count]);
    packing::unpack(inverse, &mut table[..n * n]);
}

// call_over, on words unpacked from the host's bytes: only those n vertices need.
fn call_words(
    call: Call,
    n: usize,
    made: usize,
    adjacency: &[u8],
    weights: &[u8],
    inverse: &mut [u8],
    sequence: &mut [u8],
    kept: &[u8],
) -> u64
    requires { HostFits
        (unpacked_state first_edition (state n made adjacency.now weights.now inverse.old sequence.old kept.now)) }
    ensures { let before = state n made adjacency.now weights.now
        inverse.old sequence.old kept.now in
        HostHandles first_edition before (call_is call) result (handed_back before result inverse.new sequence.new) }
{
    let mut values = [0u16; 4560];
    let mut table = [0u16; 9216];
    unpack(n, weights, inverse, &mut values, &mut table);
    let count = checks::weights_needed(n);
    call_over(
        call,
        n,
        made,
        adjacency,
        &values[..count],
        &mut table[..n * n],
        inverse,
        sequence,
        kept,
    )
}

// Makes a call through the host. Unpacks words only if n and the lengths of buffers 1 to 4 are in order.
fn handle(
    call: Call,
    n: usize,
    made: usize,
    adjacency: &[u8],
    weights: &[u8],
    inverse: &mut [u8],
    sequence: &mut [u8],
    kept: &[u8],
) -> u64
    ensures { let before = state n made adjacency.now weights.now
        inverse.old sequence.old kept.now in
        HostHandles first_edition before (call_is call) result (handed_back before result inverse.new sequence.new) }
{
    match judge_bytes(n, adjacency, weights, inverse, sequence) {
        Ok(()) => call_words(call, n, made, adjacency, weights, inverse, sequence, kept),
        Err(refusal) => numbers::refused(refusal),
    }
}

// Picks a and b through the host.
pub fn pick(
    n: usize,
    made: usize,
    a: usize,
    b: usize,
    adjacency: &[u8],
    weights: &[u8],
    inverse: &mut [u8],
    sequence: &mut [u8],
    kept: &[u8],
) -> u64
    ensures handled { let before = state n made adjacency.now weights.now
        inverse.old sequence.old kept.now in
        HostHandles first_edition before (model.pick a b) result (handed_back before result inverse.new sequence.new) }
    ensures exactly { let before = state n made adjacency.now weights.now
        inverse.old sequence.old kept.now in
        HostPickedExactly first_edition before a b result }
{
    handle(
        Call::Pick(a, b),
        n,
        made,
        adjacency,
        weights,
        inverse,
        sequence,
        kept,
    )
}

// Picks the lowest unmatched vertex and its lowest partner through the host.
pub fn automatic(
    n: usize,
    made: usize,
    adjacency: &[u8],
    weights: &[u8],
    inverse: &mut [u8],
    sequence: &mut [u8],
    kept: &[u8],
) -> u64
    ensures { let before = state n made adjacency.now weights.now
        inverse.old sequence.old kept.now in
        HostHandles first_edition before model.automatic result (handed_back before result inverse.new sequence.new) }
{
    handle(
        Call::Automatic,
        n,
        made,
        adjacency,
        weights,
        inverse,
        sequence,
        kept,
    )
}

// Removes the newest pair through the host.
pub fn undo(
    n: usize,
    made: usize,
    adjacency: &[u8],
    weights: &[u8],
    inverse: &mut [u8],
    sequence: &mut [u8],
    kept: &[u8],
) -> u64
    ensures { let before = state n made adjacency.now weights.now
        inverse.old sequence.old kept.now in
        HostHandles first_edition before model.undo result (handed_back before result inverse.new sequence.new) }
{
    handle(
        Call::Undo,
        n,
        made,
        adjacency,
        weights,
        inverse,
        sequence,
        kept,
    )
}
