// The lines of the listing, written into a lent buffer at a position. Each function returns the position after what it wrote.
#![tactic(auto)]

ghost use Rattle.std.specs.Prelude.{[], ◌∷◌, ◌+◌, ◌*◌, ◌≤◌, ◌<◌, length};
ghost use Rattle.matching.specs.Decision.{because};
ghost use Rattle.matching.specs.Pairs.{pairs_on};
ghost use Rattle.matching.specs.Listing.{decimal, first_line, pair_line, pair_lines, witness_lines, letter_full, witness_letter, verdict_line, refused_line};
ghost use Rattle.text.specs.Puts.{Puts};
ghost use Rattle.text.specs.Lines.{line_of};

// Writes bytes at position at, and returns the position after them.
pub fn put(text: &mut [u8], at: usize, bytes: &[u8]) -> usize
    requires { at + length bytes.now ≤ length text.old }
    ensures { Puts at bytes.now text.old text.new result }
{
    let end = at + bytes.len();
    text[at..end].copy_from_slice(bytes);
    end
}

// Writes the decimal digits of x.
pub fn put_decimal(text: &mut [u8], at: usize, x: usize) -> usize
    requires { at + length (decimal x) ≤ length text.old }
    ensures { Puts at (decimal x) text.old text.new result }
{
    let last = if x < 10 {
        at
    } else {
        put_decimal(text, at, x / 10)
    };
    put(text, last, &[b'0' + (x % 10) as u8])
}

// Writes a line of x and y, each after its word.
fn line(text: &mut [u8], at: usize, first: &[u8], x: usize, second: &[u8], y: usize) -> usize
    requires { at + length (line_of first.now x second.now y) ≤ length text.old }
    ensures { Puts at (line_of first.now x second.now y) text.old text.new result }
{
    let at = put(text, at, first);
    let at = put_decimal(text, at, x);
    let at = put(text, at, second);
    let at = put_decimal(text, at, y);
    put(text, at, b"\n")
}

// Writes the line of size, the number of vertices, and the number of edges.
pub fn first_line(text: &mut [u8], at: usize, size: usize, edges: usize) -> usize
    requires { at + length (first_line size edges) ≤ length text.old }
    ensures { Puts at (first_line size edges) text.old text.new result }
{
    line(text, at, b"sleeves ", size, b" links ", edges)
}

// Writes the line of a pair.
pub fn pair_line(text: &mut [u8], at: usize, smaller: usize, larger: usize) -> usize
    requires { at + length (pair_line (record { smaller = smaller; larger = larger })) ≤ length text.old }
    ensures { Puts at (pair_line (record { smaller = smaller; larger = larger })) text.old text.new result }
{
    line(text, at, b"pair ", smaller, b" ", larger)
}

// Writes the line of a refusal for a cause at an index.
pub fn refused_line(text: &mut [u8], at: usize, cause: usize, index: usize) -> usize
    requires { at + length (refused_line (because cause index)) ≤ length text.old }
    ensures { Puts at (refused_line (because cause index)) text.old text.new result }
{
    line(text, at, b"refused ", cause, b" at ", index)
}

// Writes the verdict that the listed pairs match all vertices.
pub fn full_verdict(text: &mut [u8], at: usize) -> usize
    requires { at + 10 ≤ length text.old }
    ensures { Puts at (verdict_line letter_full) text.old text.new result }
{
    put(text, at, b"verdict F\n")
}

// Writes the verdict after a witness for count vertices: O if count is odd, and U if it is even.
pub fn witness_verdict(text: &mut [u8], at: usize, count: usize) -> usize
    requires { at + 10 ≤ length text.old }
    ensures { Puts at (verdict_line (witness_letter count)) text.old text.new result }
{
    if count % 2 == 1 {
        put(text, at, b"verdict O\n")
    } else {
        put(text, at, b"verdict U\n")
    }
}

// Writes the line of the witness's word w at index i, or nothing if w is 0.
pub fn witness_line(text: &mut [u8], at: usize, i: usize, w: usize) -> usize
    requires { at + length (witness_lines i (w ∷ [])) ≤ length text.old }
    ensures { Puts at (witness_lines i (w ∷ [])) text.old text.new result }
{
    if w == 0 {
        return at;
    }
    line(text, at, b"witness ", i, b" ", w)
}

// Writes the lines of the first made pairs of sequence, the oldest first.
pub fn pair_lines(text: &mut [u8], at: usize, sequence: &[u8], made: usize) -> usize
    requires { (2 * made ≤ length sequence.now) × (at + 13 * made ≤ length text.old) }
    ensures lines { Puts at (pair_lines (pairs_on sequence.now made)) text.old text.new result }
    ensures bound { result ≤ at + 13 * made }
{
    let mut next = at;
    for pair in sequence[..2 * made].chunks_exact(2) {
        next = pair_line(text, next, pair[0] as usize, pair[1] as usize);
    }
    next
}

// Writes the lines of a witness of at most 100 words.
pub fn witness_lines(text: &mut [u8], at: usize, words: &[u16]) -> usize
    requires { (length words.now ≤ 100) × (at + 17 * length words.now ≤ length text.old) }
    ensures lines { Puts at (witness_lines 0 words.now) text.old text.new result }
    ensures bound { result ≤ at + 17 * length words.now }
{
    let mut next = at;
    for (i, word) in words.iter().enumerate() {
        next = witness_line(text, next, i, *word as usize);
    }
    next
}
