// The inner loop of a run: instructions that touch the cells and the place alone, READ and EMIT, one after the other, as
// long as budget, readings, outputs' places and counts last. It only saves time: where it stops, the
// general step goes on.
ghost use Rattle.std.specs.Prelude.{◌≡◌, true, ◌+◌, ◌<◌, ◌≤◌, length, set};
ghost use Rattle.word.specs.Word.{val, bits_of};
ghost use Rattle.instruction.specs.Bytes.{byte, length_of};
ghost use Rattle.program.specs.Places.{is_start};
ghost use Rattle.execution.specs.Effects.{cells_in};
ghost use Rattle.step.specs.Ready.{Legal};
ghost use Rattle.run.specs.Quiet.{flowed, QuietIs};

use execution::{after, cell, plain, put_cell};
use instruction::opcodes::{EMIT, READ};
use word::{from_bits, to_bits};

// Where the inner loop stands: the place, and its steps, readings taken and outputs written.
#[derive(Clone, Copy)]
pub struct Flow {
    pub pc: u32,
    pub steps: u64,
    pub taken: usize,
    pub written: usize,
}

// READ: the reading v goes into the cell.
fn take(p: &[u8], cells: &mut [u32; 256], v: i32, mut f: Flow) -> Flow
    requires { (f.pc + 2 ≤ length p.now) × (length p.now ≤ 2048) × (f.steps < 18446744073709551615) × (f.taken < 18446744073709551615) }
    ensures { (result ≡ flowed f (f.pc + length_of 0x07) 1 0) × (cells.new ≡ set cells.old (byte p.now (f.pc + 1)) (bits_of v)) }
{
    let at = f.pc as usize;
    put_cell(p, cells, at + 1, to_bits(v));
    f.pc = after(at, READ);
    f.steps += 1;
    f.taken += 1;
    f
}

// EMIT: the cell's value goes to the place `to`.
fn give(p: &[u8], cells: &[u32; 256], outputs: &mut [i32], to: usize, mut f: Flow) -> Flow
    requires { (f.pc + 2 ≤ length p.now) × (length p.now ≤ 2048) × (f.steps < 18446744073709551615) × (f.written < 18446744073709551615) × (to < length outputs.old) }
    ensures { (result ≡ flowed f (f.pc + length_of 0x08) 0 1) × (outputs.new ≡ set outputs.old to (val (cells_in cells.now (byte p.now (f.pc + 1))))) }
{
    let at = f.pc as usize;
    outputs[to] = from_bits(cell(p, cells, at + 1));
    f.pc = after(at, EMIT);
    f.steps += 1;
    f.written += 1;
    f
}

// From the place pc, with so much budget left, at most `takes` readings and at most `gives` outputs, the first of them
// at the place `first`.
pub fn quiet(
    p: &[u8],
    cells: &mut [u32; 256],
    readings: &[i32],
    outputs: &mut [i32],
    first: usize,
    pc: u32,
    left: u64,
    takes: usize,
    gives: usize,
) -> Flow
    requires { Legal p.now × (is_start p.now pc ≡ true) × (takes ≤ length readings.now) × (first + gives ≤ length outputs.old) }
    ensures { QuietIs p.now readings.now first pc left takes gives cells.old outputs.old result cells.new outputs.new }
{
    let mut f = Flow {
        pc,
        steps: 0,
        taken: 0,
        written: 0,
    };
    // The steps are a field of what goes from call to call, so they are counted by hand and not by a range.
    while f.steps < left {
        let at = f.pc as usize;
        if p[at] == READ {
            if f.taken == takes {
                return f;
            }
            let i = f.taken;
            f = take(p, cells, readings[i], f);
            continue;
        }
        if p[at] == EMIT {
            if f.written == gives {
                return f;
            }
            f = give(p, cells, outputs, first + f.written, f);
            continue;
        }
        let next = plain(p, cells, at);
        if next == 0 {
            return f;
        }
        f.pc = next;
        f.steps += 1;
    }
    f
}
