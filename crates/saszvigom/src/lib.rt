// The entries that a host calls with numbers and byte slices. Words cross as two bytes, low first (docs/HOST.md). The session calls lend a
// kept row in which every vertex is kept.
#![tactic(auto)]

ghost use Rattle.std.specs.Prelude.{◌≡◌};
ghost use Rattle.matching.specs.Edition.{first_edition};
ghost use Rattle.matching.specs.Host.{HostOpens, HostOpenedExactly, HostHandles, HostPickedExactly, HostShowsRow};
ghost use Rattle.matching.specs.Host.{HostReads, HostReadsText, HostDraws, handed_back};
ghost use Rattle.matching.specs.Model.{pick, automatic, undo};
ghost use Rattle.matching.specs.Replay.{HostReplays, HostDemandThree};
ghost use Rattle.matching.specs.Session.{state, all_kept};
ghost use Rattle.opening.specs.Meaning.{buffers};
ghost use Rattle.saszvigom.specs.Version.{version};

// The kept row of a session in which every vertex is kept.
static ALL_KEPT: [u8; 96] = [1; 96];

// Returns the version of the library: 0.8.0.
#[unsafe(no_mangle)]
pub extern "C" fn saszvigom_version() -> u64
    ensures { result ≡ version }
{
    2048
}

// Opens a session: document 01, "Opening", through the host.
#[unsafe(no_mangle)]
pub extern "C" fn saszvigom_open(
    n: u64,
    adjacency: &[u8],
    weights: &[u8],
    inverse: &mut [u8],
    sequence: &mut [u8],
    witness: &mut [u8],
    work: &mut [u8],
) -> u64
    ensures opens { let lent = buffers inverse.old sequence.old witness.old work.old in
        let after = buffers inverse.new sequence.new witness.new work.new in
        HostOpens first_edition n adjacency.now weights.now lent result after }
    ensures exactly { let lent = buffers inverse.old sequence.old witness.old work.old in
        HostOpenedExactly first_edition n adjacency.now weights.now lent result }
{
    opening_bytes::begin(
        n as usize, adjacency, weights, inverse, sequence, witness, work,
    )
}

// Picks a and b: document 01, "Session calls", through the host.
#[unsafe(no_mangle)]
pub extern "C" fn saszvigom_pick(
    n: u64,
    made: u64,
    a: u64,
    b: u64,
    adjacency: &[u8],
    weights: &[u8],
    inverse: &mut [u8],
    sequence: &mut [u8],
) -> u64
    ensures handled { let before = state n made adjacency.now weights.now
        inverse.old sequence.old all_kept in
        HostHandles first_edition before (pick a b) result (handed_back before result inverse.new sequence.new) }
    ensures exactly { let before = state n made adjacency.now weights.now
        inverse.old sequence.old all_kept in
        HostPickedExactly first_edition before a b result }
{
    crossing::pick(
        n as usize,
        made as usize,
        a as usize,
        b as usize,
        adjacency,
        weights,
        inverse,
        sequence,
        &ALL_KEPT,
    )
}

// Picks the lowest unmatched vertex and its lowest partner.
#[unsafe(no_mangle)]
pub extern "C" fn saszvigom_automatic(
    n: u64,
    made: u64,
    adjacency: &[u8],
    weights: &[u8],
    inverse: &mut [u8],
    sequence: &mut [u8],
) -> u64
    ensures { let before = state n made adjacency.now weights.now
        inverse.old sequence.old all_kept in
        HostHandles first_edition before automatic result (handed_back before result inverse.new sequence.new) }
{
    crossing::automatic(
        n as usize,
        made as usize,
        adjacency,
        weights,
        inverse,
        sequence,
        &ALL_KEPT,
    )
}

// Removes the newest pair.
#[unsafe(no_mangle)]
pub extern "C" fn saszvigom_undo(
    n: u64,
    made: u64,
    adjacency: &[u8],
    weights: &[u8],
    inverse: &mut [u8],
    sequence: &mut [u8],
) -> u64
    ensures { let before = state n made adjacency.now weights.now
        inverse.old sequence.old all_kept in
        HostHandles first_edition before undo result (handed_back before result inverse.new sequence.new) }
{
    crossing::undo(
        n as usize,
        made as usize,
        adjacency,
        weights,
        inverse,
        sequence,
        &ALL_KEPT,
    )
}

// Sets row[b], for each vertex b, to 1 if a pick of a and b would be accepted, else to 0.
#[unsafe(no_mangle)]
pub extern "C" fn saszvigom_row(
    n: u64,
    made: u64,
    a: u64,
    adjacency: &[u8],
    weights: &[u8],
    inverse: &[u8],
    sequence: &[u8],
    row: &mut [u8],
) -> u64
    ensures { let before = state n made adjacency.now weights.now
        inverse.now sequence.now all_kept in
        HostShowsRow first_edition before a row.old result before row.new }
{
    row_bytes::row(
        n as usize,
        made as usize,
        a as usize,
        adjacency,
        weights,
        inverse,
        sequence,
        &ALL_KEPT,
        row,
    )
}

// Makes a list of calls, three numbers for each, and answers each with a number. Demand 3 is the second clause.
#[unsafe(no_mangle)]
pub extern "C" fn saszvigom_replay(
    n: u64,
    made: u64,
    adjacency: &[u8],
    weights: &[u8],
    inverse: &mut [u8],
    sequence: &mut [u8],
    calls: &[u64],
    answers: &mut [u64],
) -> u64
    ensures run { let before = state n made adjacency.now weights.now
        inverse.old sequence.old all_kept in
        HostReplays first_edition before calls.now answers.old result
        (handed_back before result inverse.new sequence.new) answers.new }
    ensures demand { let before = state n made adjacency.now weights.now
        inverse.old sequence.old all_kept in
        HostDemandThree first_edition before calls.now answers.old
        (handed_back before result inverse.new sequence.new) answers.new }
{
    replay_bytes::replay(
        n as usize,
        made as usize,
        adjacency,
        weights,
        inverse,
        sequence,
        &ALL_KEPT,
        calls,
        answers,
    )
}

// Reads a sheet into an adjacency table and weights: document 01, "Sheet records", through the host.
#[unsafe(no_mangle)]
pub extern "C" fn saszvigom_read(sheet: &[u8], adjacency: &mut [u8], weights: &mut [u8]) -> u64
    ensures { HostReads first_edition sheet.now adjacency.old weights.old result
        adjacency.new weights.new }
{
    sheet_bytes::read(sheet, adjacency, weights)
}

// Reads a text in the DIMACS edge format into an adjacency table, and the draws of a seed into weights: document 02, request 1, through the
// host.
#[unsafe(no_mangle)]
pub extern "C" fn saszvigom_read_dimacs(
    text: &[u8],
    seed: u32,
    adjacency: &mut [u8],
    weights: &mut [u8],
) -> u64
    ensures { HostReadsText first_edition seed text.now adjacency.old weights.old result
        adjacency.new weights.new }
{
    dimacs_bytes::read(text, seed, adjacency, weights)
}

// Draws the weights of n vertices from a seed: document 01, "Draw roll", through the host.
#[unsafe(no_mangle)]
pub extern "C" fn saszvigom_draws(n: u64, seed: u32, weights: &mut [u8]) -> u64
    ensures { HostDraws first_edition n seed weights.old result weights.new }
{
    sheet_bytes::draw(n as usize, seed, weights)
}
