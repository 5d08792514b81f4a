// What an opening leaves, as the number and the bytes that the host gets. Words cross as two bytes, low first (docs/HOST.md).
#![tactic(auto)]

ghost use Rattle.std.specs.Prelude.{◌≡◌, List, ℕ, ◌*◌, ◌≤◌, length};
ghost use Rattle.matching.specs.Host.{opening_number};
ghost use Rattle.opening.specs.Meaning.{opening_of, buffers};
ghost use Rattle.opening_pack.specs.Packed.{OpeningNumberFits, after};

use numbers::AnswerKind;
use opening::Opening;
use refusals::Refusal;

// Returns the number of an opening, and stores the words of the inverse, the witness and the work buffer as bytes unless it is a refusal.
pub fn pack(
    n: usize,
    opened: Result<Opening, Refusal>,
    table: &[u16],
    vector: &[u16],
    spare: &[u16],
    inverse: &mut [u8],
    witness: &mut [u8],
    work: &mut [u8],
) -> u64
    requires enough_words { (n * n ≤ length table.now) × (n ≤ length vector.now) × (n * n ≤ length spare.now) }
    requires enough_bytes { (2 * (n * n) ≤ length inverse.old) × (2 * n ≤ length witness.old) × (2 * (n * n) ≤ length work.old) }
    requires number_fits { OpeningNumberFits (opening_of opened) }
    ensures numbered { result ≡ opening_number (opening_of opened) }
    ensures stored { (new old : List ℕ)
        → buffers inverse.new new witness.new work.new
        ≡ after n (opening_of opened)
        (buffers table.now new vector.now spare.now)
        (buffers inverse.old old witness.old work.old) }
{
    let opening = match opened {
        Ok(opening) => opening,
        Err(refusal) => return numbers::refused(refusal),
    };
    packing::store(table, n * n, inverse);
    packing::store(vector, n, witness);
    packing::store(spare, n * n, work);
    match opening {
        Opening::Opened(session) => numbers::carried(AnswerKind::Opened, 0, session.made as u64),
        Opening::Singular(first) => numbers::carried(AnswerKind::Witness, first as u64, 0),
    }
}
