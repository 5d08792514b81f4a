// Replay with numbers and byte slices: what the host's entry calls. Words cross as two bytes, low first (docs/HOST.md).
#![tactic(auto)]

ghost use Rattle.std.specs.Prelude.{◌≡◌, ◌*◌, ◌≤◌, length};
ghost use Rattle.matching.specs.Edition.{first_edition};
ghost use Rattle.matching.specs.Host.{unpacked_state, handed_back};
ghost use Rattle.matching.specs.Replay.{HostReplays, HostDemandThree};
ghost use Rattle.matching.specs.Session.{state};
ghost use Rattle.crossing.specs.HostFits.{HostFits};
ghost use Rattle.replay_bytes.specs.HostReplay.{ReplaysOver};

use numbers::AnswerKind;
use session::Session;

// Replays over lent words, and returns the host's number. If a call was accepted, stores the words of table as the bytes of inverse.
fn replay_over(
    n: usize,
    made: usize,
    adjacency: &[u8],
    weights: &[u16],
    table: &mut [u16],
    inverse: &mut [u8],
    sequence: &mut [u8],
    kept: &[u8],
    list: &[u64],
    answers: &mut [u64],
) -> u64
    requires { 2 * length table.old ≤ length inverse.old }
    ensures { let before = state n made adjacency.now weights.now
        table.old sequence.old kept.now in
        ReplaysOver before list.now answers.old inverse.old result
        inverse.new sequence.new answers.new }
{
    let session = Session { size: n, made };
    let replayed = replay::replay(
        session, adjacency, weights, table, sequence, kept, list, answers,
    );
    if replayed.changed {
        packing::store(table, table.len(), inverse);
    }
    numbers::ruled(AnswerKind::Replayed, replayed.ruling, replayed.session.made)
}

// replay_over, on words unpacked from the host's bytes: only those n vertices need.
fn replay_words(
    n: usize,
    made: usize,
    adjacency: &[u8],
    weights: &[u8],
    inverse: &mut [u8],
    sequence: &mut [u8],
    kept: &[u8],
    list: &[u64],
    answers: &mut [u64],
) -> u64
    requires { HostFits
        (unpacked_state first_edition (state n made adjacency.now weights.now inverse.old sequence.old kept.now)) }
    ensures { let before = state n made adjacency.now weights.now
        inverse.old sequence.old kept.now in
        HostReplays first_edition before list.now answers.old result
        (handed_back before result inverse.new sequence.new) answers.new }
{
    let mut values = [0u16; 4560];
    let mut table = [0u16; 9216];
    crossing::unpack(n, weights, inverse, &mut values, &mut table);
    let count = checks::weights_needed(n);
    replay_over(
        n,
        made,
        adjacency,
        &values[..count],
        &mut table[..n * n],
        inverse,
        sequence,
        kept,
        list,
        answers,
    )
}

// Replays through the host. Unpacks words only if n and the lengths of buffers 1 to 4 are in order.
pub fn replay(
    n: usize,
    made: usize,
    adjacency: &[u8],
    weights: &[u8],
    inverse: &mut [u8],
    sequence: &mut [u8],
    kept: &[u8],
    list: &[u64],
    answers: &mut [u64],
) -> u64
    ensures run { let before = state n made adjacency.now weights.now
        inverse.old sequence.old kept.now in
        HostReplays first_edition before list.now answers.old result
        (handed_back before result inverse.new sequence.new) answers.new }
    ensures demand { let before = state n made adjacency.now weights.now
        inverse.old sequence.old kept.now in
        HostDemandThree first_edition before list.now answers.old
        (handed_back before result inverse.new sequence.new) answers.new }
{
    match crossing::judge_bytes(n, adjacency, weights, inverse, sequence) {
        Ok(()) => replay_words(
            n, made, adjacency, weights, inverse, sequence, kept, list, answers,
        ),
        Err(refusal) => numbers::refused(refusal),
    }
}
