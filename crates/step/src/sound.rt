// Whether a state is sound: document 01's list, each part as `sound_of` of specs/State.antt has it.
ghost use Rattle.std.specs.Prelude.{◌≡◌, ℕ, ◌-◌, ◌<◌, ◌≤◌, length, ◌&&◌, ◌||◌, cond, List, eqb, leb, sum};
ghost use Rattle.program.specs.Places.{Places, is_start, is_exclude};
ghost use Rattle.step.specs.State.{machine_of, zero_from, marks_from, pages_sound_of, saving_sound_of, sound_of};

use crate::{COUNT_FULL, Regs};
use instruction::opcodes::CHECKPOINT;
use journal::owners::kind_of;
use journal::pages::is_whole;
use journal::writing::size;
use marks::stored_cells;
use program::places::place_at;

// Whether the cells are 0: their sum tells it, so that no number needs a test of its own.
fn cells_clear(cells: &[u32]) -> bool
    requires { length cells.now ≤ 256 }
    ensures { result ≡ eqb (sum cells.now) 0 }
{
    cells.iter().map(|x| u64::from(*x)).sum::<u64>() == 0
}

// Whether the marks are Include; a sum of its own width lets the compiler take more bytes at a time.
fn marks_clear(marks: &[u8]) -> bool
    requires { length marks.now ≤ 256 }
    ensures { result ≡ eqb (sum marks.now) 0 }
{
    marks.iter().map(|x| u16::from(*x)).sum::<u16>() == 0
}

// Whether each byte is a mark's: how many are none is summed without a test in the loop.
fn are_marks(marks: &[u8; 256]) -> bool
    ensures { result ≡ marks_from marks.now 0 256 }
{
    marks.iter().map(|mark| u16::from(3 < *mark)).sum::<u16>() == 0
}

// Whether pages have 1 to 16 bytes, and the write position and the bytes to erase are whole pages.
fn pages_sound(r: Regs) -> bool
    ensures { result ≡ pages_sound_of r }
{
    let page = r.page;
    0 < page && page <= 16 && is_whole(r.write as usize, page) && is_whole(r.erase as usize, page)
}

// Whether the state may be saving, where it is.
fn saving_sound(r: Regs, p: &[u8], cells: &[u32; 256], marks: &[u8; 256], len: usize) -> bool
    requires { (r.pc < length p.now) × (0 < r.page) × (r.page ≤ 16) }
    ensures { (l : List ℕ) → length l ≡ len → result ≡ saving_sound_of p.now (machine_of r cells.now marks.now l) }
{
    if r.saving == 0 {
        return true;
    }
    if p[r.pc as usize] != CHECKPOINT || r.erase != 0 {
        return false;
    }
    let page = r.page;
    let bytes = size(
        stored_cells(marks, p[0] as usize + 1),
        page,
        kind_of(r.owner),
    );
    let stored = r.saving as usize - 1;
    stored < bytes && is_whole(stored, page) && r.write as usize + (bytes - stored) <= len
}

// Whether the place is an instruction's and the last EXCLUDE is one or 0.
fn places_sound(r: Regs, table: &[u8; 2048]) -> bool
    ensures { (p : List ℕ) → Places p table.now → result ≡ (is_start p r.pc && (eqb r.exclude 0 || is_exclude p r.exclude)) }
{
    place_at(table, r.pc as usize).start
        && (r.exclude == 0 || place_at(table, r.exclude as usize).exclude.is_some())
}

// Whether the state is sound beside a journal of `len` bytes, for an accepted program and its table of places.
pub fn sound(
    r: Regs,
    p: &[u8],
    table: &[u8; 2048],
    cells: &[u32; 256],
    marks: &[u8; 256],
    len: usize,
) -> bool
    requires { Places p.now table.now × (0 < length p.now) × (length p.now ≤ 2048) }
    ensures { (l : List ℕ) → length l ≡ len → result ≡ sound_of p.now (machine_of r cells.now marks.now l) }
{
    let n = p[0] as usize + 1;
    let spare_cells = &cells[n..];
    let spare_marks = &marks[n..];
    r.stop <= COUNT_FULL
        && are_marks(marks)
        && places_sound(r, table)
        && cells_clear(spare_cells)
        && marks_clear(spare_marks)
        && r.write as usize + r.erase as usize <= len
        && pages_sound(r)
        && saving_sound(r, p, cells, marks, len)
}
