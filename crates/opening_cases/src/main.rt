// Opens the graphs of document 01's last sheet to try, and some more, and writes each answer with a digest of every buffer, its excess
// included. A digest starts at 0, and each element x turns digest d into 3 d + x, modulo 2^64.
#![tactic(auto)]

use opening::Opening;
use refusals::{Place, Refusal};
use std::io;

// Writes what opening answers.
fn show(rt: &impl Print, answer: Result<Opening, Refusal>) -> io::Result<()> {
    match answer {
        Ok(Opening::Opened(session)) => println!(rt; "opened {} {}", session.size, session.made),
        Ok(Opening::Singular(f)) => println!(rt; "witness {f}"),
        Err(refusal) => {
            print!(rt; "refused {} at ", refusal.cause)?;
            match refusal.place {
                Place::Index(index) => println!(rt; "{index}"),
                Place::Cell(cell) => println!(rt; "{} {} {}", cell.row, cell.column, cell.fault),
            }
        }
    }
}

// Returns the digest of a buffer.
fn digest<T: Copy>(elements: &[T]) -> u64
where
    u64: From<T>,
{
    elements.iter().fold(
        0u64,
        |digest, x| digest.wrapping_mul(3).wrapping_add(u64::from(*x)),
    )
}

// Opens a graph over buffers that are full of 7 and longer than needed, and writes the answer and the digests.
fn run(rt: &impl Print, n: usize, adjacency: &[u8], weights: &[u16]) -> io::Result<()> {
    let mut inverse = [7u16; 9220];
    let mut sequence = [7u8; 100];
    let mut witness = [7u16; 100];
    let mut work = [7u16; 9220];
    let answer = opening::begin(
        n,
        adjacency,
        weights,
        &mut inverse,
        &mut sequence,
        &mut witness,
        &mut work,
    );
    show(rt, answer)?;
    println!(rt;
        "digests {} {} {} {}",
        digest(&inverse),
        digest(&sequence),
        digest(&witness),
        digest(&work)
    )
}

// Opens 96 vertices that are all adjacent, 97, and the same table read as that of 95, whose second diagonal cell is then 1.
fn all_linked(rt: &impl Print) -> io::Result<()> {
    let mut adjacency = [1u8; 9409];
    for v in 0..96 {
        adjacency[97 * v] = 0;
    }
    let weights = [1; 4656];
    for n in [96, 97, 95] {
        run(rt, n, &adjacency, &weights)?;
    }
    Ok(())
}

fn main(rt: HostRuntime) -> io::Result<()> {
    all_linked(&rt)?;
    // Two adjacent vertices.
    for weight in [65520, 0, 65521, 2] {
        run(&rt, 2, &[0, 1, 1, 0], &[weight])?;
    }
    for n in [0, 1] {
        run(&rt, n, &[0], &[0])?;
    }
    Ok(())
}
