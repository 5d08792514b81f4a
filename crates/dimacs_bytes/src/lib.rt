// Texts in the DIMACS edge format with numbers and byte slices: what the host's entry calls. Words cross as two bytes, low first
// (docs/HOST.md).
#![tactic(auto)]

ghost use Rattle.std.specs.Prelude.{◌≡◌};
ghost use Rattle.matching.specs.Edition.{first_edition};
ghost use Rattle.matching.specs.Host.{read_number, capped, HostReadsText};
ghost use Rattle.filling.specs.Meaning.{read_of};
ghost use Rattle.sheet_bytes.specs.Stored.{StoreRoom};
ghost use Rattle.dimacs_bytes.specs.Texts.{Fits};

use filling::Extent;
use numbers::AnswerKind;
use refusals::Refusal;

// Returns the host's number for read.
fn number(read: Result<Extent, Refusal>) -> u64
    requires { Fits (read_of read) }
    ensures { result ≡ read_number (capped (read_of read)) }
{
    match read {
        Ok(extent) => numbers::carried(AnswerKind::Read, extent.edges as u64, extent.size as u64),
        Err(refusal) => numbers::refused_at_line(refusal),
    }
}

// Reads text into adjacency and values, and stores the draws of seed for its graph in weights as bytes.
fn read_over(
    text: &[u8],
    seed: u32,
    adjacency: &mut [u8],
    values: &mut [u16],
    weights: &mut [u8],
) -> u64
    requires { StoreRoom values.old weights.old }
    ensures { HostReadsText first_edition seed text.now adjacency.old weights.old result
        adjacency.new weights.new }
{
    let read = dimacs::read(text, seed, adjacency, values);
    let count = sheet_bytes::stored(read);
    packing::store(values, count, weights);
    number(read)
}

// Calls read_over with words of its own: what weights has room for, but at most what the largest graph needs.
pub fn read(text: &[u8], seed: u32, adjacency: &mut [u8], weights: &mut [u8]) -> u64
    ensures { HostReadsText first_edition seed text.now adjacency.old weights.old result
        adjacency.new weights.new }
{
    // 96 * 95 / 2 weights.
    let mut values = [0u16; 4560];
    let room = sheet_bytes::room(weights);
    read_over(text, seed, adjacency, &mut values[..room], weights)
}
