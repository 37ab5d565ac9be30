// The refusals 2 to 5 of one instruction.
ghost use Rattle.std.specs.Prelude.{◌≡◌, cond, ◌≤◌, eqb, length};
ghost use Rattle.instruction.specs.Bytes.{byte, length_of};
ghost use Rattle.program.specs.Refusal.{number_if};
ghost use Rattle.program.specs.Starts.{refusal_at_of};

use crate::refusal::Refusal;
use instruction::exist::{cells_exist, table_fits};
use instruction::{byte_at, instruction_at};

// 1 where two bytes are equal.
pub fn same_byte(a: u8, b: u8) -> u8
    ensures { result ≡ cond (eqb a b) 1 0 }
{
    u8::from(a == b)
}

// Refuses the instruction at an offset, whose length is len, if it meets one of these refusals.
pub fn refuse_at(p: &[u8], at: usize, len: usize) -> Result<(), Refusal>
    requires { (at ≤ length p.now) × (len ≡ length_of (byte p.now at)) }
    ensures { number_if result ≡ refusal_at_of p.now at }
{
    if len == 0 {
        return Err(Refusal::UnknownCommand);
    }
    if p.len() < at + len {
        return Err(Refusal::CutCommand);
    }
    let cells = byte_at(p, 0) as u32 + 1;
    let i = instruction_at(p, at);
    if !cells_exist(i, cells) {
        return Err(Refusal::MissingCell);
    }
    if !table_fits(i, cells) {
        return Err(Refusal::BadTable);
    }
    Ok(())
}
