// The reader of a sheet: the bytes that it is lent, together with its place in them.
#![tactic(auto)]

ghost use Rattle.std.specs.Prelude.{◌≡◌};
ghost use Rattle.matching.specs.Edition.{first_edition};
ghost use Rattle.matching.specs.Records.{FillsFrom, Fills};
ghost use Rattle.records.specs.Stands.{Stands};
ghost use Rattle.filling.specs.Meaning.{read_of};

use filling::Extent;
use records::Next;
use refusals::Refusal;

// The bytes of a sheet, and an offset in them.
#[derive(Clone, Copy)]
pub struct Reader<'a> {
    pub bytes: &'a [u8],
    pub at: usize,
}

impl<'a> Reader<'a> {
    // Makes a reader at the first byte of bytes.
    pub fn new(bytes: &'a [u8]) -> Reader<'a>
        ensures { (result.bytes ≡ bytes.entry) × (result.at ≡ 0) }
    {
        Reader { bytes, at: 0 }
    }

    // Returns a reader of its bytes at offset at.
    pub fn moved(self, at: usize) -> Reader<'a>
        ensures { (result.bytes ≡ self.entry.bytes) × (result.at ≡ at) }
    {
        Reader {
            bytes: self.bytes,
            at,
        }
    }

    // Reads what stands at its place.
    pub fn next(self) -> Next
        ensures { Stands self.entry.bytes.now self.entry.at result }
    {
        records::next_at(self.bytes, self.at)
    }

    // Reads a sheet from its place to the end of its bytes into adjacency and weights.
    pub fn fill(self, adjacency: &mut [u8], weights: &mut [u16]) -> Result<Extent, Refusal>
        ensures { FillsFrom first_edition self.entry.bytes.now self.entry.at adjacency.old weights.old
            (read_of result) adjacency.new weights.new }
    {
        sheet::read_at(self.bytes, self.at, adjacency, weights)
    }
}

// Reads bytes, a whole sheet, into adjacency and weights.
pub fn read(bytes: &[u8], adjacency: &mut [u8], weights: &mut [u16]) -> Result<Extent, Refusal>
    ensures { Fills first_edition bytes.now adjacency.old weights.old (read_of result)
        adjacency.new weights.new }
{
    Reader::new(bytes).fill(adjacency, weights)
}
