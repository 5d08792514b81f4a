// Why a call is refused: a cause and a place.
#![tactic(auto)]

ghost use Rattle.std.specs.Prelude.{◌≡◌};
ghost use Rattle.matching.specs.Decision.{place_number, because, because_cell};
ghost use Rattle.refusals.specs.Meaning.{cause_number, buffer_number, fault_number, place_of, refusal_of};

// The causes, by their numbers. docs/HOST.md has what each means; of 12 and 13, what each means of a sheet, and of a list of calls.
#[derive(Clone, Copy)]
pub enum Cause {
    SizeTooLarge = 1,
    BufferTooShort = 2,
    AdjacencyFault = 3,
    WeightOutOfRange = 4,
    SessionMalformed = 5,
    InverseWrong = 6,
    VertexInvalid = 7,
    VertexMatched = 8,
    NotAdjacent = 9,
    RestSingular = 10,
    NothingLeft = 11,
    KindNotDue = 12,
    CutShort = 13,
    EndsInvalid = 14,
    EdgeRepeated = 15,
    LineInvalid = 16,
    LineCountWrong = 17,
}

impl Cause {
    // Returns the number of the cause.
    pub fn number(self) -> u8
        ensures { result ≡ cause_number self }
    {
        self as u8
    }
}

// The buffers that a call is lent. 9 is the number of none.
#[derive(Clone, Copy)]
pub enum Buffer {
    Adjacency = 1,
    Weights = 2,
    Inverse = 3,
    Sequence = 4,
    Witness = 5,
    Work = 6,
    Row = 7,
    Kept = 8,
    Answers = 10,
}

impl Buffer {
    // Returns the number of the buffer.
    pub fn number(self) -> u8
        ensures { result ≡ buffer_number self }
    {
        self as u8
    }
}

// What is wrong with a cell of the adjacency table: it is not 0 or 1, it is not 0 on the diagonal, or it differs from its mirror.
#[derive(Clone, Copy)]
pub enum Fault {
    NotBit = 1,
    OnDiagonal = 2,
    Unequal = 3,
}

impl Fault {
    // Returns the number of the fault.
    pub fn number(self) -> u8
        ensures { result ≡ fault_number self }
    {
        self as u8
    }
}

// A faulty cell of the adjacency table, with the number of the first of the faults that it has.
#[derive(Clone, Copy)]
pub struct FaultyCell {
    pub row: u8,
    pub column: u8,
    pub fault: u8,
}

// The place returned with a cause: a number, such as an index, an offset, a line or the number of a buffer; or a faulty cell.
#[derive(Clone, Copy)]
pub enum Place {
    Index(usize),
    Cell(FaultyCell),
}

// Why a call is refused: the number of the cause, and the place returned with it.
#[derive(Clone, Copy)]
pub struct Refusal {
    pub cause: u8,
    pub place: Place,
}

// Returns the refusal for a cause at an index.
pub fn because(cause: Cause, index: usize) -> Refusal
    ensures { refusal_of result ≡ because (cause_number cause) index }
{
    Refusal {
        cause: cause.number(),
        place: Place::Index(index),
    }
}

// Returns the refusal for a buffer that is too short.
pub fn too_short(buffer: Buffer) -> Refusal
    ensures { refusal_of result ≡ because 2 (buffer_number buffer) }
{
    because(Cause::BufferTooShort, buffer.number() as usize)
}

// Returns the refusal for a faulty cell, the only cause whose place is one.
pub fn because_cell(cell: FaultyCell) -> Refusal
    ensures { refusal_of result ≡ because_cell cell.row cell.column cell.fault }
{
    Refusal {
        cause: Cause::AdjacencyFault.number(),
        place: Place::Cell(cell),
    }
}

// Returns a place as one number: an index as it is; of a cell the row, the column and the fault, 8 bits each.
pub fn place_number(place: Place) -> usize
    ensures { result ≡ place_number (place_of place) }
{
    match place {
        Place::Index(index) => index,
        Place::Cell(cell) => {
            cell.row as usize + 256 * (cell.column as usize) + 65536 * (cell.fault as usize)
        }
    }
}
