// The table of a program's places, a byte to an offset, filled once for many questions: whether an
// instruction starts there, whether a CHECKPOINT ends there, and which EXCLUDE stands there.
// proofs/PlaceLaws.antt turns what a byte of the table says into facts of the program.
ghost use Rattle.std.specs.Prelude.{◌≡◌, min};
ghost use Rattle.program.specs.Places.{place_from_of, entry_at, numbered, Blank, read_place};

use crate::rules::same_byte;
use instruction::opcodes::{CHECKPOINT, EXCLUDE};

// What stands at an offset: whether an instruction starts there, whether it is the offset after a
// CHECKPOINT, and which EXCLUDE it is, if it is one.
#[derive(Clone, Copy, PartialEq, Eq)]
pub struct Place {
    pub start: bool,
    pub after: bool,
    pub exclude: Option<u8>,
}

// A table with no place in it.
pub fn blank() -> [u8; 2048]
    ensures { Blank result }
{
    [0u8; 2048]
}

// Leaves no place in a table.
pub(crate) fn clear(table: &mut [u8; 2048])
    ensures { Blank table.new }
{
    *table = [0u8; 2048];
}

// The table's byte at a start, from the opcode before it, its own, and the EXCLUDEs before it. More of
// these than 64 come in refused programs alone, and count as 64 so that a byte holds them.
pub(crate) fn place_from(before: u8, opcode: u8, number: u32) -> u8
    ensures { result ≡ place_from_of before opcode (min number 64) }
{
    let after = same_byte(before, CHECKPOINT);
    if opcode != EXCLUDE {
        return 2 + after;
    }
    if 64 < number {
        return 2 + after + 2 * 65;
    }
    2 + after + 2 * (number as u8 + 1)
}

// What a byte of the table says.
fn read_place(entry: u8) -> Place
    ensures { numbered result ≡ read_place entry }
{
    Place {
        start: entry != 0,
        after: entry % 2 == 1,
        exclude: if entry < 4 { None } else { Some(entry / 2 - 2) },
    }
}

// What the table has of an offset; past the table's end no instruction starts.
pub fn place_at(table: &[u8; 2048], t: usize) -> Place
    ensures { numbered result ≡ read_place (entry_at table.now t) }
{
    read_place(if t < 2048 { table[t] } else { 0 })
}
