// Runs the draw roll and writes its states and draws.
#![tactic(auto)]

use std::io;

// Writes a state and its draw on a line.
fn show(rt: &impl Print, state: u32) -> io::Result<()> {
    println!(rt; "state {state} draw {}", draws::draw(state))
}

// Shows the first four states from seed.
fn steps(rt: &impl Print, seed: u32) -> io::Result<()> {
    let mut state = seed;
    for _ in 0..4 {
        state = draws::next(state);
        show(rt, state)?;
    }
    Ok(())
}

// Shows the first and the last state whose high half is high.
fn halves(rt: &impl Print, high: u16) -> io::Result<()> {
    let first = u32::from(high) * 65536;
    show(rt, first)?;
    show(rt, first + 65535)
}

// Writes the words on a line.
fn list(rt: &impl Print, words: &[u16]) -> io::Result<()> {
    print!(rt; "words")?;
    for word in words {
        print!(rt; " {word}")?;
    }
    println!(rt)
}

fn main(rt: HostRuntime) -> io::Result<()> {
    for seed in [0, u32::MAX] {
        steps(&rt, seed)?;
    }
    for high in [0, 65519, 65520, 65521, 65534, 65535] {
        halves(&rt, high)?;
    }

    // Fills all the words, then the three in the middle, then none.
    let mut words = [0u16; 5];
    draws::fill(&mut words, 0);
    list(&rt, &words)?;
    draws::fill(&mut words[1..4], u32::MAX);
    list(&rt, &words)?;
    draws::fill(&mut words[2..2], 7);
    list(&rt, &words)
}
