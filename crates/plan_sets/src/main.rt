// Reads a plan on standard input and writes its listing: the header and a line for each EXCLUDE, or the
// refusal. Input past 2,049 bytes is left unread: the plan is too long.
#![tactic(auto)]

ghost use Rattle.std.specs.Prelude.{◌≤◌, length, IfOk};

use std::io;
use std::io::Read;

// Fills the buffer from the front until it is full or the input ends, and gives how many bytes came.
fn fill<R: Read>(reader: &mut R, buffer: &mut [u8]) -> io::Result<usize>
    ensures { IfOk result (λ n. n ≤ length buffer.old) }
{
    let mut n = 0;
    while n < buffer.len() {
        let more = reader.read(&mut buffer[n..])?;
        if more == 0 {
            break;
        }
        n += more;
    }
    Ok(n)
}

fn main(rt: HostRuntime) -> io::Result<()> {
    let mut program = [0u8; 2049];
    let n = fill(&mut rt.reader(), &mut program)?;
    let mut text = [0u8; 140000];
    let end = listing::list(&program[..n], &mut text);
    rt.write_all(&text[..end])
}
