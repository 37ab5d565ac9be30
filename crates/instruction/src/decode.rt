// Reading a program's bytes: every function answers at every offset, with 0 for a byte past the end.
ghost use Rattle.std.specs.Prelude.{◌≡◌, [], ◌∷◌, ◌+◌};
ghost use Rattle.word.specs.Bytes.{number_of};
ghost use Rattle.instruction.specs.Bytes.{byte, instruction_at_of};

use crate::Instruction;
use crate::opcodes::{
    ADD, CHECKPOINT, COPY, DIV, EMIT, EXCLUDE, GET, JUMP, LESS, PUT, READ, SET, SUB,
};

// The byte at an offset.
pub fn byte_at(p: &[u8], at: usize) -> u8
    ensures { result ≡ byte p.now at }
{
    if at < p.len() { p[at] } else { 0 }
}

// The byte that stands k bytes after an offset.
fn operand(p: &[u8], at: usize, k: usize) -> u8
    ensures { result ≡ byte p.now (at + k) }
{
    if at < p.len() && k < p.len() - at {
        p[at + k]
    } else {
        0
    }
}

// The 16-bit number of two bytes.
fn half(low: u8, high: u8) -> u16
    ensures { result ≡ number_of (low ∷ high ∷ []) }
{
    u16::from_le_bytes([low, high])
}

// The instruction at an offset.
#[tactic(auto, unfolding(crate::specs::Bytes::instruction_at_of))]
pub fn instruction_at(p: &[u8], at: usize) -> Instruction
    ensures { result ≡ instruction_at_of p.now at }
{
    let k = byte_at(p, at);
    let x = operand(p, at, 1);
    let y = operand(p, at, 2);
    let z = operand(p, at, 3);
    let w = operand(p, at, 4);
    match k {
        SET => Instruction::Set {
            d: x,
            v: word::from_bytes(y, z, w, operand(p, at, 5)),
        },
        COPY => Instruction::Copy { d: x, a: y },
        ADD => Instruction::Add { d: x, a: y, b: z },
        SUB => Instruction::Sub { d: x, a: y, b: z },
        DIV => Instruction::Div { d: x, a: y, b: z },
        READ => Instruction::Read { d: x },
        EMIT => Instruction::Emit { a: x },
        JUMP => Instruction::Jump { t: half(x, y) },
        LESS => Instruction::Less {
            a: x,
            b: y,
            t: half(z, w),
        },
        GET => Instruction::Get {
            d: x,
            base: y,
            len: z,
            i: w,
        },
        PUT => Instruction::Put {
            base: x,
            len: y,
            i: z,
            a: w,
        },
        EXCLUDE => Instruction::Exclude,
        CHECKPOINT => Instruction::Checkpoint,
        _ => Instruction::End,
    }
}
