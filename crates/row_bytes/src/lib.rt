// The row of a vertex's partners with numbers and byte slices: what the host's entry calls. Words cross as two bytes, low first
// (docs/HOST.md).
#![tactic(auto)]

ghost use Rattle.matching.specs.Edition.{first_edition};
ghost use Rattle.matching.specs.Host.{unpacked_state, HostShowsRow};
ghost use Rattle.matching.specs.Session.{state};
ghost use Rattle.crossing.specs.HostFits.{HostFits};
ghost use Rattle.row_bytes.specs.HostRow.{ShowsOver};

use numbers::AnswerKind;
use session::Session;

// Writes the row of a over lent words, and returns the host's number.
fn row_over(
    n: usize,
    made: usize,
    a: usize,
    adjacency: &[u8],
    weights: &[u16],
    inverse: &[u16],
    sequence: &[u8],
    kept: &[u8],
    row: &mut [u8],
) -> u64
    ensures { let before = state n made adjacency.now weights.now
        inverse.now sequence.now kept.now in
        ShowsOver before a row.old result row.new }
{
    let session = Session { size: n, made };
    let shown = session.row(adjacency, weights, inverse, sequence, kept, a, row);
    numbers::ruled(AnswerKind::Row, shown.ruling, made)
}

// row_over, on words unpacked from the host's bytes: only those n vertices need.
fn row_words(
    n: usize,
    made: usize,
    a: usize,
    adjacency: &[u8],
    weights: &[u8],
    inverse: &[u8],
    sequence: &[u8],
    kept: &[u8],
    row: &mut [u8],
) -> u64
    requires { HostFits
        (unpacked_state first_edition (state n made adjacency.now weights.now inverse.now sequence.now kept.now)) }
    ensures { let before = state n made adjacency.now weights.now
        inverse.now sequence.now kept.now in
        HostShowsRow first_edition before a row.old result before row.new }
{
    let mut values = [0u16; 4560];
    let mut table = [0u16; 9216];
    crossing::unpack(n, weights, inverse, &mut values, &mut table);
    let count = checks::weights_needed(n);
    row_over(
        n,
        made,
        a,
        adjacency,
        &values[..count],
        &table[..n * n],
        sequence,
        kept,
        row,
    )
}

// Writes the row of a through the host. Unpacks words only if n and the lengths of buffers 1 to 4 are in order.
pub fn row(
    n: usize,
    made: usize,
    a: usize,
    adjacency: &[u8],
    weights: &[u8],
    inverse: &[u8],
    sequence: &[u8],
    kept: &[u8],
    row: &mut [u8],
) -> u64
    ensures { let before = state n made adjacency.now weights.now
        inverse.now sequence.now kept.now in
        HostShowsRow first_edition before a row.old result before row.new }
{
    match crossing::judge_bytes(n, adjacency, weights, inverse, sequence) {
        Ok(()) => row_words(n, made, a, adjacency, weights, inverse, sequence, kept, row),
        Err(refusal) => numbers::refused(refusal),
    }
}
