// One instruction (document 01: a command): the length table, decoding, what it may read and write,
// where it may go, and whether its cells and its table exist. Everything is equated with
// specs/Bytes.antt and with the rows of specs/Table.antt, document 01's command table.
#![tactic(auto)]

pub mod access;
mod decode;
pub mod exist;
pub mod opcodes;

pub use decode::{byte_at, instruction_at};

// An instruction (document 01: a command), decoded. A value is its 32-bit pattern.
#[derive(Clone, Copy)]
pub enum Instruction {
    End,
    Set { d: u8, v: u32 },
    Copy { d: u8, a: u8 },
    Add { d: u8, a: u8, b: u8 },
    Sub { d: u8, a: u8, b: u8 },
    Div { d: u8, a: u8, b: u8 },
    Read { d: u8 },
    Emit { a: u8 },
    Jump { t: u16 },
    Less { a: u8, b: u8, t: u16 },
    Get { d: u8, base: u8, len: u8, i: u8 },
    Put { base: u8, len: u8, i: u8, a: u8 },
    Exclude,
    Checkpoint,
}

// Where an instruction may go: nowhere, on, to an offset, or to an offset or on.
#[derive(Clone, Copy)]
pub enum Flow {
    Halt,
    Next,
    Goto(u16),
    Branch(u16),
}
