// The listing of a sheet as text in a lent buffer.
#![tactic(auto)]

ghost use Rattle.std.specs.Prelude.{◌≤◌, length};
ghost use Rattle.matching.specs.Edition.{first_edition};
ghost use Rattle.matching.specs.Listing.{input_limit, text_room, ListsInto};
ghost use Rattle.verdict.specs.Lines.{Writes};
ghost use Rattle.listing.specs.Meaning.{listed_of};
ghost use Rattle.listing.specs.Sheets.{ListsBytes, Tables};

// The most bytes that are read.
const INPUT_LIMIT: usize = 16384;

// The bytes that every listing fits in.
const TEXT_ROOM: usize = 2048;

// Writes all lines of the sheet bytes; adjacency and weights have room for the largest graph.
fn sheet_lines(bytes: &[u8], adjacency: &mut [u8], weights: &mut [u16], text: &mut [u8]) -> usize
    requires { Tables bytes.now adjacency.old weights.old text.old }
    ensures { Writes (ListsBytes bytes.now) 0 text.old text.new result }
{
    match reader::read(bytes, adjacency, weights) {
        Ok(extent) => {
            let n = extent.size;
            let cells = n * n;
            let count = checks::weights_needed(n);
            verdict::graph_lines(
                n,
                extent.edges,
                &adjacency[..cells],
                &weights[..count],
                text,
            )
        }
        Err(why) => {
            let cause = why.cause as usize;
            let index = refusals::place_number(why.place);
            text::refused_line(text, 0, cause, index)
        }
    }
}

// Calls sheet_lines with tables of its own.
fn write_lines(bytes: &[u8], text: &mut [u8]) -> usize
    requires few { length bytes.now ≤ input_limit }
    requires room { text_room ≤ length text.old }
    ensures { Writes (ListsBytes bytes.now) 0 text.old text.new result }
{
    // 96 * 96 cells, and 96 * 95 / 2 weights.
    let mut adjacency = [0u8; 9216];
    let mut weights = [0u16; 4560];
    sheet_lines(bytes, &mut adjacency, &mut weights, text)
}

// Lists the first 16,384 bytes of input, or all of them if there are fewer, into text. Returns the length of the listing, or None if text is
// shorter than 2,048 bytes.
pub fn list(input: &[u8], text: &mut [u8]) -> Option<usize>
    ensures { ListsInto first_edition input.now text.old (listed_of result) text.new }
{
    if text.len() < TEXT_ROOM {
        return None;
    }
    let bytes = &input[..INPUT_LIMIT.min(input.len())];
    Some(write_lines(bytes, text))
}
