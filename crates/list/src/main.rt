// Lists the sheet on standard input. Reads at most 16,384 bytes of it and writes the text, which `listing` makes.
#![tactic(auto)]

ghost use Rattle.std.specs.Prelude.{◌≤◌, length};

use std::io;
use std::io::Read;

// Reads until the bytes are full, the input ends or a read fails, and returns how many bytes it put at their start.
fn read_full(input: &mut impl Read, bytes: &mut [u8]) -> usize
    ensures { result ≤ length bytes.new }
{
    let mut done = 0;
    while done < bytes.len() {
        let count = input.read(&mut bytes[done..]).unwrap_or(0);
        if count == 0 {
            break;
        }
        done += count;
    }
    done
}

fn main(rt: HostRuntime) -> io::Result<()> {
    let mut input = [0u8; 16384];
    let mut text = [0u8; 2048];
    let length = read_full(&mut rt.stdin(), &mut input);
    if let Some(end) = listing::list(&input[..length], &mut text) {
        rt.write_all(&text[..end])?;
    }
    Ok(())
}
