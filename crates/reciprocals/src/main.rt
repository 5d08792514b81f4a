// Runs the residues modulo 65521: the reciprocal of each but 0, and each operation at its limits.
#![tactic(auto)]

use residue::Residue;
use std::io;

// Tells whether the reciprocal of word is below the modulus and its product with word is 1 modulo the modulus.
fn holds(word: u16) -> bool {
    let reciprocal = Residue { value: word }.invert().value as u64;
    reciprocal < Residue::MODULUS && word as u64 * reciprocal % Residue::MODULUS == 1
}

// Counts the words from 1 to 65520 for which holds is true.
fn count() -> usize {
    (1..Residue::MODULUS as u16)
        .filter(|word| holds(*word))
        .count()
}

fn make(rt: &impl Print, number: u64) -> io::Result<()> {
    println!(rt; "make {number} {}", Residue::make(number).value)
}

// Runs the operations on one word.
fn one(rt: &impl Print, word: u16) -> io::Result<()> {
    let a = Residue { value: word };
    println!(rt; "is_zero {word} {}", u8::from(a.is_zero()))?;
    println!(rt; "negate {word} {}", a.negate().value)?;
    println!(rt; "invert {word} {}", a.invert().value)
}

// Runs the operations on two words.
fn two(rt: &impl Print, first: u16, second: u16) -> io::Result<()> {
    let a = Residue { value: first };
    let b = Residue { value: second };
    println!(rt; "add {first} {second} {}", a.add(b).value)?;
    println!(rt; "subtract {first} {second} {}", a.subtract(b).value)?;
    println!(rt; "multiply {first} {second} {}", a.multiply(b).value)
}

fn main(rt: HostRuntime) -> io::Result<()> {
    println!(rt; "reciprocals {}", count())?;

    for number in [0, 65520, 65521, u64::MAX] {
        make(&rt, number)?;
    }

    // Words of 65521 or more stand for their remainders.
    for word in [0, 1, 2, 32761, 65520, 65521, 65522, 65535] {
        one(&rt, word)?;
    }

    for (first, second) in [
        (0, 1),
        (1, 0),
        (1, 65535),
        (65520, 65520),
        (65520, 1),
        (65521, 65521),
        (65535, 65535),
        (65535, 65520),
    ] {
        two(&rt, first, second)?;
    }
    Ok(())
}
