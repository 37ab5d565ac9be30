// The opcodes, and the one table of instruction lengths (document 01: "Command lengths stand in one
// fixed table"). Numbers and no enum, since they are the bytes of a program's format and index the table.
ghost use Rattle.std.specs.Prelude.{◌≡◌};
ghost use Rattle.instruction.specs.Bytes.{length_of, Lengths};

pub const END: u8 = 1;

pub const SET: u8 = 2;

pub const COPY: u8 = 3;

pub const ADD: u8 = 4;

pub const SUB: u8 = 5;

pub const DIV: u8 = 6;

pub const READ: u8 = 7;

pub const EMIT: u8 = 8;

pub const JUMP: u8 = 9;

pub const LESS: u8 = 10;

pub const GET: u8 = 11;

pub const PUT: u8 = 12;

pub const EXCLUDE: u8 = 13;

pub const CHECKPOINT: u8 = 14;

// From an opcode to the instruction's length, 0 for what is no opcode.
pub const LENGTHS: [u8; 256] = [
    0, 1, 6, 3, 4, 4, 4, 2, 2, 3, 5, 5, 5, 1, 1, 0, 0, 0, 0, 0, 0, 0, 0, 0, 0, 0, 0, 0, 0, 0, 0, 0,
    0, 0, 0, 0, 0, 0, 0, 0, 0, 0, 0, 0, 0, 0, 0, 0, 0, 0, 0, 0, 0, 0, 0, 0, 0, 0, 0, 0, 0, 0, 0, 0,
    0, 0, 0, 0, 0, 0, 0, 0, 0, 0, 0, 0, 0, 0, 0, 0, 0, 0, 0, 0, 0, 0, 0, 0, 0, 0, 0, 0, 0, 0, 0, 0,
    0, 0, 0, 0, 0, 0, 0, 0, 0, 0, 0, 0, 0, 0, 0, 0, 0, 0, 0, 0, 0, 0, 0, 0, 0, 0, 0, 0, 0, 0, 0, 0,
    0, 0, 0, 0, 0, 0, 0, 0, 0, 0, 0, 0, 0, 0, 0, 0, 0, 0, 0, 0, 0, 0, 0, 0, 0, 0, 0, 0, 0, 0, 0, 0,
    0, 0, 0, 0, 0, 0, 0, 0, 0, 0, 0, 0, 0, 0, 0, 0, 0, 0, 0, 0, 0, 0, 0, 0, 0, 0, 0, 0, 0, 0, 0, 0,
    0, 0, 0, 0, 0, 0, 0, 0, 0, 0, 0, 0, 0, 0, 0, 0, 0, 0, 0, 0, 0, 0, 0, 0, 0, 0, 0, 0, 0, 0, 0, 0,
    0, 0, 0, 0, 0, 0, 0, 0, 0, 0, 0, 0, 0, 0, 0, 0, 0, 0, 0, 0, 0, 0, 0, 0, 0, 0, 0, 0, 0, 0, 0, 0,
];

// The whole table, for a loop that asks it at each turn: a constant's 256 bytes are copied at every
// use with a variable index.
pub fn length_table() -> [u8; 256]
    ensures { Lengths result }
{
    LENGTHS
}

// The length of the instruction with this opcode, from such a copy.
pub fn length_in(table: &[u8; 256], opcode: u8) -> usize
    requires { Lengths table.now }
    ensures { result ≡ length_of opcode }
{
    table[opcode as usize] as usize
}
