// Runs a session on four vertices that are all adjacent, with every weight 1: a pick of 0 and 0, which document 01's last sheet to try
// names, other refused calls, two pairs made and undone; then one in which only 0 and 1 are kept. After each list of calls it writes the
// answers as the host's numbers, and then the session, the inverse and the sequence of pairs.
#![tactic(auto)]

use session::Session;
use std::fmt::Display;
use std::io;

const ADJACENCY: [u8; 16] = [0, 1, 1, 1, 1, 0, 1, 1, 1, 1, 0, 1, 1, 1, 1, 0];

const WEIGHTS: [u16; 6] = [1; 6];

// Writes a line of numbers, each with a space behind it.
fn show<T: Display>(rt: &impl Print, numbers: &[T]) -> io::Result<()> {
    for number in numbers {
        print!(rt; "{number} ")?;
    }
    println!(rt)
}

// Makes the calls of list on the session of the graph with made pairs, and writes the answers and what they leave.
fn run(
    rt: &impl Print,
    made: usize,
    inverse: &mut [u16],
    sequence: &mut [u8],
    kept: &[u8],
    list: &[u64],
) -> io::Result<()> {
    let mut answers = [0; 6];
    let session = Session { size: 4, made };
    let replayed = replay::replay(
        session,
        &ADJACENCY,
        &WEIGHTS,
        inverse,
        sequence,
        kept,
        list,
        &mut answers,
    );
    show(rt, &answers)?;
    show(rt, &[replayed.session.size, replayed.session.made])?;
    show(rt, inverse)?;
    show(rt, sequence)
}

fn main(rt: HostRuntime) -> io::Result<()> {
    // The inverse of document 01's seventh sheet to try.
    let mut inverse = [
        0, 65520, 1, 65520, 1, 0, 65520, 1, 65520, 1, 0, 65520, 1, 65520, 1, 0,
    ];
    let mut sequence = [255; 4];
    let cases = [
        // Picks of 0 and 0, of 4 and 0, of 1 and 0, of 0 and 2, and two automatic picks.
        (0, [1, 0, 0, 1, 4, 0, 1, 1, 0, 1, 0, 2, 2, 0, 0, 2, 0, 0]),
        // A pick of 300 and 300, which are not vertices, four undos, of which two have a pair, and an automatic pick.
        (
            2,
            [1, 300, 300, 3, 0, 0, 3, 0, 0, 3, 0, 0, 3, 0, 0, 2, 0, 0],
        ),
    ];
    for (made, list) in &cases {
        run(&rt, *made, &mut inverse, &mut sequence, &[1; 4], list)?;
    }
    // The inverse for 0 and 1 alone.
    let mut inverse = [0; 16];
    inverse[1] = 65520;
    inverse[4] = 1;
    let mut sequence = [255; 4];
    // A pick of 0 and 2, two automatic picks, a pick of 2 and 3, two undos.
    let list = [1, 0, 2, 2, 0, 0, 2, 0, 0, 1, 2, 3, 3, 0, 0, 3, 0, 0];
    run(&rt, 0, &mut inverse, &mut sequence, &[1, 1, 0, 0], &list)
}
