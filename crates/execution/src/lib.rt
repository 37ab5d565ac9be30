// One instruction (document 01: a command) on the cells, done from its bytes. `plain` does those that touch the
// cells and the place alone, and is equated with document 01's command table, the effects of
// specs/Effects.antt; the others are the machine's.
#![tactic(auto)]

ghost use Rattle.std.specs.Prelude.{◌≡◌, true, cond, ◌+◌, ◌<◌, ◌≤◌, eqb, length, set};
ghost use Rattle.word.specs.Bytes.{load_of};
ghost use Rattle.word.specs.Word.{add_of, sub_of, div_of, less_of};
ghost use Rattle.instruction.specs.Bytes.{byte, length_of};
ghost use Rattle.instruction.specs.Table.{fits_in_of, table_at};
ghost use Rattle.execution.specs.Effects.{cells_in, table_cell_of};
ghost use Rattle.execution.specs.Plain.{moved, plain_of, Fetches};

use instruction::opcodes::{ADD, COPY, DIV, GET, JUMP, LENGTHS, LESS, PUT, SET, SUB};
use word::{load16, load32};

// The offset after an instruction, by the one table of lengths: the arms below ask it with a constant, so that
// the look-up is done by the compiler.
pub fn after(at: usize, opcode: u8) -> u32
    requires { at < 4096 }
    ensures { result ≡ at + length_of opcode }
{
    at as u32 + LENGTHS[opcode as usize] as u32
}

// The value of the cell that the byte at o names.
pub fn cell(p: &[u8], cells: &[u32; 256], o: usize) -> u32
    requires { o < length p.now }
    ensures { result ≡ cells_in cells.now (byte p.now o) }
{
    cells[p[o] as usize]
}

// Gives that cell a value.
pub fn put_cell(p: &[u8], cells: &mut [u32; 256], o: usize, v: u32)
    requires { o < length p.now }
    ensures { cells.new ≡ set cells.old (byte p.now o) v }
{
    cells[p[o] as usize] = v;
}

// The cell of a table at an index.
fn table_cell(base: u8, len: u8, i: u32) -> usize
    requires { fits_in_of 256 (table_at base len) ≡ true }
    ensures { (result ≡ table_cell_of base len i) × (result < 256) }
{
    base as usize + word::place(i, len as u32) as usize
}

fn set_cell(p: &[u8], cells: &mut [u32; 256], at: usize) -> u32
    requires { (at < 4096) × (at + 6 ≤ length p.now) }
    ensures { moved result cells.new ≡ moved (at + length_of 0x02) (set cells.old (byte p.now (at + 1)) (load_of 4 p.now (at + 2))) }
{
    put_cell(p, cells, at + 1, load32(p, at + 2));
    after(at, SET)
}

fn copy(p: &[u8], cells: &mut [u32; 256], at: usize) -> u32
    requires { (at < 4096) × (at + 3 ≤ length p.now) }
    ensures { moved result cells.new ≡ moved (at + length_of 0x03) (set cells.old (byte p.now (at + 1)) (cells_in cells.old (byte p.now (at + 2)))) }
{
    let v = cell(p, cells, at + 2);
    put_cell(p, cells, at + 1, v);
    after(at, COPY)
}

fn add(p: &[u8], cells: &mut [u32; 256], at: usize) -> u32
    requires { (at < 4096) × (at + 4 ≤ length p.now) }
    ensures { moved result cells.new ≡ moved (at + length_of 0x04) (set cells.old (byte p.now (at + 1)) (add_of (cells_in cells.old (byte p.now (at + 2))) (cells_in cells.old (byte p.now (at + 3))))) }
{
    let v = word::add(cell(p, cells, at + 2), cell(p, cells, at + 3));
    put_cell(p, cells, at + 1, v);
    after(at, ADD)
}

fn sub(p: &[u8], cells: &mut [u32; 256], at: usize) -> u32
    requires { (at < 4096) × (at + 4 ≤ length p.now) }
    ensures { moved result cells.new ≡ moved (at + length_of 0x05) (set cells.old (byte p.now (at + 1)) (sub_of (cells_in cells.old (byte p.now (at + 2))) (cells_in cells.old (byte p.now (at + 3))))) }
{
    let v = word::sub(cell(p, cells, at + 2), cell(p, cells, at + 3));
    put_cell(p, cells, at + 1, v);
    after(at, SUB)
}

// 0, and nothing done, where the divisor is 0: the number that `plain` passes on.
fn div(p: &[u8], cells: &mut [u32; 256], at: usize) -> u32
    requires { (at < 4096) × (at + 4 ≤ length p.now) }
    ensures { moved result cells.new ≡ cond (eqb (cells_in cells.old (byte p.now (at + 3))) 0) (moved 0 cells.old) (moved (at + length_of 0x06) (set cells.old (byte p.now (at + 1)) (div_of (cells_in cells.old (byte p.now (at + 2))) (cells_in cells.old (byte p.now (at + 3)))))) }
{
    let y = cell(p, cells, at + 3);
    if y == 0 {
        return 0;
    }
    let v = word::div(cell(p, cells, at + 2), y);
    put_cell(p, cells, at + 1, v);
    after(at, DIV)
}

fn less(p: &[u8], cells: &[u32; 256], at: usize) -> u32
    requires { (at < 4096) × (at + 5 ≤ length p.now) }
    ensures { result ≡ cond (less_of (cells_in cells.now (byte p.now (at + 1))) (cells_in cells.now (byte p.now (at + 2)))) (load_of 2 p.now (at + 3)) (at + length_of 0x0A) }
{
    if word::less(cell(p, cells, at + 1), cell(p, cells, at + 2)) {
        load16(p, at + 3) as u32
    } else {
        after(at, LESS)
    }
}

fn get(p: &[u8], cells: &mut [u32; 256], at: usize) -> u32
    requires { (at < 4096) × (at + 5 ≤ length p.now) × (fits_in_of 256 (table_at (byte p.now (at + 2)) (byte p.now (at + 3))) ≡ true) }
    ensures { moved result cells.new ≡ moved (at + length_of 0x0B) (set cells.old (byte p.now (at + 1)) (cells_in cells.old (table_cell_of (byte p.now (at + 2)) (byte p.now (at + 3)) (cells_in cells.old (byte p.now (at + 4)))))) }
{
    let i = cell(p, cells, at + 4);
    let c = table_cell(p[at + 2], p[at + 3], i);
    let v = cells[c];
    put_cell(p, cells, at + 1, v);
    after(at, GET)
}

fn put(p: &[u8], cells: &mut [u32; 256], at: usize) -> u32
    requires { (at < 4096) × (at + 5 ≤ length p.now) × (fits_in_of 256 (table_at (byte p.now (at + 1)) (byte p.now (at + 2))) ≡ true) }
    ensures { moved result cells.new ≡ moved (at + length_of 0x0C) (set cells.old (table_cell_of (byte p.now (at + 1)) (byte p.now (at + 2)) (cells_in cells.old (byte p.now (at + 3)))) (cells_in cells.old (byte p.now (at + 4)))) }
{
    let i = cell(p, cells, at + 3);
    let v = cell(p, cells, at + 4);
    let c = table_cell(p[at + 1], p[at + 2], i);
    cells[c] = v;
    after(at, PUT)
}

// The instruction at an offset, where it touches the cells and the place alone: the next place. 0, and nothing
// done, for any other, and for a division by 0. A match on the opcode and no table of closures: the commands are fixed,
// and the compiler makes the table of jumps. A number and no Option, since a place is never 0 and the hot loop
// of crate `run` so tests and keeps one register; this was not measured.
pub fn plain(p: &[u8], cells: &mut [u32; 256], at: usize) -> u32
    requires { Fetches p.now at }
    ensures { moved result cells.new ≡ plain_of p.now at cells.old }
{
    match p[at] {
        SET => set_cell(p, cells, at),
        COPY => copy(p, cells, at),
        ADD => add(p, cells, at),
        SUB => sub(p, cells, at),
        DIV => div(p, cells, at),
        JUMP => load16(p, at + 1) as u32,
        LESS => less(p, cells, at),
        GET => get(p, cells, at),
        PUT => put(p, cells, at),
        _ => 0,
    }
}
