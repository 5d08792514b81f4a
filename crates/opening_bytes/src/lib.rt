// Opening with numbers and byte slices: what the host's entry calls. Words cross as two bytes, low first (docs/HOST.md).
#![tactic(auto)]

ghost use Rattle.std.specs.Prelude.{◌*◌, ◌≤◌};
ghost use Rattle.matching.specs.Edition.{first_edition};
ghost use Rattle.matching.specs.Host.{HostOpens, HostOpenedExactly};
ghost use Rattle.checks.specs.Weights.{needed};
ghost use Rattle.opening.specs.Meaning.{buffers};
ghost use Rattle.opening_bytes.specs.Opened.{HostOpeningFits, Lends};

use checks::Lengths;

// Opens over lent words: unpacks the weights that the graph needs, opens the session on words, and packs what that leaves.
fn open_over(
    n: usize,
    adjacency: &[u8],
    weights: &[u8],
    values: &mut [u16],
    table: &mut [u16],
    vector: &mut [u16],
    spare: &mut [u16],
    inverse: &mut [u8],
    sequence: &mut [u8],
    witness: &mut [u8],
    work: &mut [u8],
) -> u64
    requires host_opening_fits { HostOpeningFits n adjacency.now weights.now (buffers inverse.old sequence.old witness.old work.old) }
    requires lends { Lends n values.old table.old vector.old spare.old }
    ensures { let lent = buffers inverse.old sequence.old witness.old work.old in
        let after = buffers inverse.new sequence.new witness.new work.new in
        HostOpens first_edition n adjacency.now weights.now lent result after }
{
    packing::unpack(weights, values);
    let opened = opening::begin(n, adjacency, values, table, sequence, vector, spare);
    opening_pack::pack(n, opened, table, vector, spare, inverse, witness, work)
}

// Calls open_over with words of its own: PAIRS for the weights, CELLS for a table and SIDE for a vector. It is never inlined, so that a call
// has the words of one instance on its stack, and not those of three.
#[inline(never)]
fn open_with<const PAIRS: usize, const CELLS: usize, const SIDE: usize>(
    n: usize,
    adjacency: &[u8],
    weights: &[u8],
    inverse: &mut [u8],
    sequence: &mut [u8],
    witness: &mut [u8],
    work: &mut [u8],
) -> u64
    requires host_opening_fits { HostOpeningFits n adjacency.now weights.now (buffers inverse.old sequence.old witness.old work.old) }
    requires pairs { (needed n ≤ PAIRS) × (PAIRS ≤ 4560) }
    requires cells { (n * n ≤ CELLS) × (CELLS ≤ 9216) }
    requires side { (n ≤ SIDE) × (SIDE ≤ 96) }
    ensures { let lent = buffers inverse.old sequence.old witness.old work.old in
        let after = buffers inverse.new sequence.new witness.new work.new in
        HostOpens first_edition n adjacency.now weights.now lent result after }
{
    let mut values = [0u16; PAIRS];
    let mut table = [0u16; CELLS];
    let mut vector = [0u16; SIDE];
    let mut spare = [0u16; CELLS];
    let count = checks::weights_needed(n);
    open_over(
        n,
        adjacency,
        weights,
        &mut values[..count],
        &mut table[..n * n],
        &mut vector[..n],
        &mut spare[..n * n],
        inverse,
        sequence,
        witness,
        work,
    )
}

// Opens with as few words as serve n vertices: fewer take less time to clear.
fn open_words(
    n: usize,
    adjacency: &[u8],
    weights: &[u8],
    inverse: &mut [u8],
    sequence: &mut [u8],
    witness: &mut [u8],
    work: &mut [u8],
) -> u64
    requires { HostOpeningFits n adjacency.now weights.now (buffers inverse.old sequence.old witness.old work.old) }
    ensures { let lent = buffers inverse.old sequence.old witness.old work.old in
        let after = buffers inverse.new sequence.new witness.new work.new in
        HostOpens first_edition n adjacency.now weights.now lent result after }
{
    if n <= 32 {
        // 32 * 31 / 2, 32 * 32 and 32 words.
        open_with::<496, 1024, 32>(n, adjacency, weights, inverse, sequence, witness, work)
    } else if n <= 64 {
        // 64 * 63 / 2, 64 * 64 and 64 words.
        open_with::<2016, 4096, 64>(n, adjacency, weights, inverse, sequence, witness, work)
    } else {
        // The words of the largest graph: 96 * 95 / 2, 96 * 96 and 96.
        open_with::<4560, 9216, 96>(n, adjacency, weights, inverse, sequence, witness, work)
    }
}

// Opens a session through the host. Unpacks words only if n and the lengths are in order.
pub fn begin(
    n: usize,
    adjacency: &[u8],
    weights: &[u8],
    inverse: &mut [u8],
    sequence: &mut [u8],
    witness: &mut [u8],
    work: &mut [u8],
) -> u64
    ensures opens { let lent = buffers inverse.old sequence.old witness.old work.old in
        let after = buffers inverse.new sequence.new witness.new work.new in
        HostOpens first_edition n adjacency.now weights.now lent result after }
    ensures exactly { let lent = buffers inverse.old sequence.old witness.old work.old in
        HostOpenedExactly first_edition n adjacency.now weights.now lent result }
{
    let lengths = Lengths {
        adjacency: adjacency.len(),
        weights: weights.len() / 2,
        inverse: inverse.len() / 2,
        sequence: sequence.len(),
    };
    match checks::judge_room(n, lengths, witness.len() / 2, work.len() / 2) {
        Ok(()) => open_words(n, adjacency, weights, inverse, sequence, witness, work),
        Err(refusal) => numbers::refused(refusal),
    }
}
