// Sheets and draws with numbers and byte slices: what the host's entries call. Words cross as two bytes, low first (docs/HOST.md).
#![tactic(auto)]

ghost use Rattle.std.specs.Prelude.{◌≡◌, List, ℕ, ◌+◌, ◌*◌, ◌≤◌, length};
ghost use Rattle.lists.specs.Onto.{onto};
ghost use Rattle.draws.specs.Draws.{draw, draws};
ghost use Rattle.matching.specs.Edition.{first_edition};
ghost use Rattle.matching.specs.Listing.{input_limit};
ghost use Rattle.matching.specs.Host.{bytes_of, read_number, HostReads, HostDraws};
ghost use Rattle.laws.specs.Filling.{AnswerBounds};
ghost use Rattle.filling.specs.Meaning.{read_of};
ghost use Rattle.sheet_bytes.specs.Reads.{ReadRoom, ReadsFront};
ghost use Rattle.sheet_bytes.specs.Stored.{stored_of, StoreRoom};

use filling::Extent;
use numbers::AnswerKind;
use refusals::{Buffer, Cause, Refusal};

// Returns the host's number for read.
fn number(read: Result<Extent, Refusal>) -> u64
    requires { AnswerBounds (read_of read) (input_limit + 2) }
    ensures { result ≡ read_number (read_of read) }
{
    match read {
        Ok(extent) => numbers::carried(AnswerKind::Read, extent.edges as u64, extent.size as u64),
        Err(refusal) => numbers::refused(refusal),
    }
}

// Counts the weights to store: none on a refusal.
pub fn stored(read: Result<Extent, Refusal>) -> usize
    ensures { result ≡ stored_of (read_of read) }
{
    match read {
        Ok(extent) => checks::weights_needed(extent.size),
        Err(_) => 0,
    }
}

// Reads sheet into adjacency and values, and stores the weights of its graph in weights as bytes.
fn read_over(sheet: &[u8], adjacency: &mut [u8], values: &mut [u16], weights: &mut [u8]) -> u64
    requires { ReadRoom sheet.now values.old weights.old }
    ensures { ReadsFront sheet.now adjacency.old weights.old result
        adjacency.new weights.new }
{
    let read = reader::read(sheet, adjacency, values);
    let count = stored(read);
    packing::store(values, count, weights);
    number(read)
}

// Returns how many words to lend for the weights: as many as they have room for, but at most what the largest graph needs.
pub fn room(weights: &[u8]) -> usize
    ensures few { result ≤ 4560 }
    ensures serves { (values : List ℕ) → length values ≡ result → StoreRoom values weights.now }
{
    (weights.len() / 2).min(4560)
}

// Calls read_over with words of its own.
fn read_words(sheet: &[u8], adjacency: &mut [u8], weights: &mut [u8]) -> u64
    requires { length sheet.now ≤ input_limit }
    ensures { ReadsFront sheet.now adjacency.old weights.old result
        adjacency.new weights.new }
{
    // 96 * 95 / 2 weights.
    let mut values = [0u16; 4560];
    let room = room(weights);
    read_over(sheet, adjacency, &mut values[..room], weights)
}

// Reads the first 16,384 bytes of sheet, or all of them if it has fewer.
pub fn read(sheet: &[u8], adjacency: &mut [u8], weights: &mut [u8]) -> u64
    ensures { HostReads first_edition sheet.now adjacency.old weights.old result
        adjacency.new weights.new }
{
    let count = sheet.len().min(16384);
    read_words(&sheet[..count], adjacency, weights)
}

// Writes the first count draws of seed to weights as bytes.
fn draw_words(count: usize, seed: u32, weights: &mut [u8])
    requires { (count ≤ 4560) × (2 * count ≤ length weights.old) }
    ensures { weights.new ≡ onto (bytes_of 2 (draws draw seed count)) weights.old }
{
    // 96 * 95 / 2 weights.
    let mut values = [0u16; 4560];
    draws::fill(&mut values[..count], seed);
    packing::store(&values, count, weights);
}

// Writes the draws of seed to weights as the weights of n vertices.
pub fn draw(n: usize, seed: u32, weights: &mut [u8]) -> u64
    ensures { HostDraws first_edition n seed weights.old result weights.new }
{
    if checks::LARGEST < n {
        return numbers::refused(refusals::because(Cause::SizeTooLarge, 0));
    }
    let count = checks::weights_needed(n);
    if weights.len() / 2 < count {
        return numbers::refused(refusals::too_short(Buffer::Weights));
    }
    draw_words(count, seed, weights);
    numbers::carried(AnswerKind::Drawn, count as u64, 0)
}
