// The machine's state (document 01: 'Marks, steps and the chip'), and one step of it: a page to erase, else the
// next page of a save, else the instruction; on a byte chip a page is a byte. The registers go by value, cells,
// marks and journal are changed in place. Proved: a step of a sound state is `step_of` of specs/Step.antt, and
// keeps it sound; `sound` is `sound_of` of specs/State.antt.
#![tactic(auto)]

pub mod sound;

ghost use Rattle.std.specs.Prelude.{◌≡◌, List, ℕ, ◌+◌, ◌<◌, ◌≤◌, ℤ, length, take, drop, replicate, true};
ghost use Rattle.std.proofs.lemmas.List.Edits.{sets};
ghost use Rattle.journal.specs.Format.{format_of, kind_number, padded};
ghost use Rattle.journal.specs.Writing.{checkpoint_of};
ghost use Rattle.instruction.specs.Bytes.{byte, cells_of};
ghost use Rattle.program.specs.Places.{is_exclude};
ghost use Rattle.step.specs.State.{env_of, machine_of};
ghost use Rattle.step.specs.Step.{erased_of, stored_of, executed_of, step_of};
ghost use Rattle.step.specs.Ready.{Ready, Good, halted, emitted};

use cellset::CellSet;
use execution::{after, plain, put_cell};
use instruction::byte_at;
use instruction::opcodes::{CHECKPOINT, DIV, EMIT, EXCLUDE, READ};
use journal::owners::{Kind, kind_of};
use journal::writing::{fits, image_byte, size};
use journal::{Commit, ERASED};
use marks::{exclude, keep, stored_cells};
use program::places::place_at;
use word::to_bits;

// The registers: the place (offset of the instruction due), the last EXCLUDE executed or 0, the readings
// taken and the outputs given, the kind of stop, the write position, the bytes to erase, and 0 or one more
// than the bytes stored of the save at work. The last two are no part of the state that a host lends: they
// say for which kind of chip the call is, by the bytes that a step stores or erases, 1 for the byte chip and
// 16 for the page chip, and the owner that its MARKs name, 0 for the MARKs of document 01, which name none.
// `exclude`, `stop` and `saving` are numbers, and no enum or Option, as the host's state has them (docs/STATE.md).
#[derive(Clone, Copy)]
pub struct Regs {
    pub pc: u32,
    pub exclude: u32,
    pub readings: u32,
    pub outputs: u32,
    pub stop: u32,
    pub write: u32,
    pub erase: u32,
    pub saving: u32,
    pub page: usize,
    pub owner: u32,
}

// The state: the registers, the cells' patterns and their marks' bytes.
#[derive(Clone, Copy)]
pub struct State {
    pub regs: Regs,
    pub cells: [u32; 256],
    pub marks: [u8; 256],
}

// The greatest count of readings or outputs.
const MOST: u32 = u32::MAX;

// The kind of stop at END; 0 is not stopped.
const ENDED: u32 = 1;

// The kind of stop at a division by 0.
const DIVISOR: u32 = 2;

// The kind of stop at a READ or EMIT whose count is full, the last kind.
const COUNT_FULL: u32 = 3;

// How many cells the program has.
pub fn cell_count(p: &[u8]) -> usize
    ensures { (result ≡ cells_of p.now) × (result ≤ 256) }
{
    byte_at(p, 0) as usize + 1
}

// The highest torn page is erased.
fn erase_one(mut r: Regs, journal: &mut [u8]) -> Regs
    requires { (r.page ≤ r.erase) × (r.write + r.erase ≤ length journal.old) × (length journal.old ≤ 65536) }
    ensures { (xs ms : List ℕ) → machine_of result xs ms journal.new ≡ erased_of (machine_of r xs ms journal.old) }
{
    r.erase -= r.page as u32;
    let from = (r.write + r.erase) as usize;
    journal[from..from + r.page].fill(ERASED);
    r
}

// n bytes of what is stored of a checkpoint, from `from` on, go to the journal, from `to` on.
fn put_bytes(
    journal: &mut [u8],
    to: usize,
    s: CellSet,
    cells: &[u32; 256],
    commit: Commit,
    kind: Kind,
    from: usize,
    n: usize,
)
    requires { (to + n ≤ length journal.old) × (length journal.old ≤ 65536) × (from + n ≤ 65536) }
    ensures { (page owner : ℕ) → from + n ≤ length (padded (format_of page (kind_number kind) owner) (checkpoint_of s.words cells.now commit)) → journal.new ≡ sets journal.old to (take n (drop from (padded (format_of page (kind_number kind) owner) (checkpoint_of s.words cells.now commit)))) }
{
    for (i, byte) in journal[to..to + n].iter_mut().enumerate() {
        *byte = image_byte(s, cells, commit, kind, from + i);
    }
}

// The next page of the save is stored; with the last one the save is whole.
fn store_one(
    mut r: Regs,
    p: &[u8],
    cells: &[u32; 256],
    marks: &mut [u8; 256],
    journal: &mut [u8],
) -> Regs
    requires { Good p.now (machine_of r cells.now marks.old journal.old) × (length p.now ≤ 2048) × (0 < r.saving) }
    ensures { machine_of result cells.now marks.new journal.new ≡ stored_of p.now (machine_of r cells.now marks.old journal.old) }
{
    let n = cell_count(p);
    let s = stored_cells(marks, n);
    let next = after(r.pc as usize, CHECKPOINT);
    let commit = Commit {
        place: next as u16,
        exclude: r.exclude as u16,
        readings: r.readings,
        outputs: r.outputs,
        owner: r.owner,
    };
    let kind = kind_of(r.owner);
    let page = r.page;
    let from = r.saving as usize - 1;
    put_bytes(
        journal,
        r.write as usize,
        s,
        cells,
        commit,
        kind,
        from,
        page,
    );
    r.write += page as u32;
    if from + page == size(s, page, kind) {
        keep(marks, n);
        r.pc = next;
        r.saving = 0;
        return r;
    }
    r.saving += page as u32;
    r
}

fn stop(mut r: Regs, kind: u32) -> Regs
    ensures { result ≡ halted r kind }
{
    r.stop = kind;
    r
}

// READ: the reading v goes into the cell, unless the count is full.
fn read(mut r: Regs, p: &[u8], cells: &mut [u32; 256], v: i32) -> Regs
    requires { (r.pc + 2 ≤ length p.now) × (length p.now ≤ 2048) × (byte p.now r.pc ≡ 0x07) × (r.stop ≡ 0) }
    ensures { (ws ms l : List ℕ) → machine_of result cells.new ms l ≡ executed_of (env_of p.now ws) v (machine_of r cells.old ms l) }
{
    if r.readings == MOST {
        return stop(r, COUNT_FULL);
    }
    let at = r.pc as usize;
    put_cell(p, cells, at + 1, to_bits(v));
    r.readings += 1;
    r.pc = after(at, READ);
    r
}

// EMIT, but for the output itself.
fn emit(mut r: Regs) -> Regs
    requires { r.pc < 4096 }
    ensures { result ≡ emitted r }
{
    if r.outputs == MOST {
        return stop(r, COUNT_FULL);
    }
    r.outputs += 1;
    r.pc = after(r.pc as usize, EMIT);
    r
}

// EXCLUDE: the marks by its DE and RO.
fn exclude_all(
    mut r: Regs,
    p: &[u8],
    table: &[u8; 2048],
    sets: &[u64],
    marks: &mut [u8; 256],
) -> Regs
    requires { Ready (env_of p.now sets.now) table.now × (is_exclude p.now r.pc ≡ true) × (r.stop ≡ 0) }
    ensures { (v : ℤ) (xs l : List ℕ) → machine_of result xs marks.new l ≡ executed_of (env_of p.now sets.now) v (machine_of r xs marks.old l) }
{
    let at = r.pc as usize;
    let number = place_at(table, at).exclude.unwrap();
    exclude(marks, sets, 8 * usize::from(number), cell_count(p));
    r.exclude = r.pc;
    r.pc = after(at, EXCLUDE);
    r
}

// CHECKPOINT: the save begins where it fits, else the program goes on.
fn begin_save(mut r: Regs, p: &[u8], marks: &[u8; 256], journal: &[u8]) -> Regs
    requires { (r.pc < 4096) × (byte p.now r.pc ≡ 0x0E) × (r.stop ≡ 0) × (0 < r.page) × (r.page ≤ 16) }
    ensures { (v : ℤ) (ws xs : List ℕ) → machine_of result xs marks.now journal.now ≡ executed_of (env_of p.now ws) v (machine_of r xs marks.now journal.now) }
{
    let s = stored_cells(marks, cell_count(p));
    if fits(s, r.write as usize, journal.len(), r.page, kind_of(r.owner)) {
        r.saving = 1;
        return r;
    }
    r.pc = after(r.pc as usize, CHECKPOINT);
    r
}

// The instruction at the place; v is the next reading. A match on the opcode, as in `plain`.
fn execute(
    mut r: Regs,
    p: &[u8],
    table: &[u8; 2048],
    sets: &[u64],
    cells: &mut [u32; 256],
    marks: &mut [u8; 256],
    journal: &[u8],
    v: i32,
) -> Regs
    requires { Ready (env_of p.now sets.now) table.now × Good p.now (machine_of r cells.old marks.old journal.now) × (r.stop ≡ 0) }
    ensures { machine_of result cells.new marks.new journal.now ≡ executed_of (env_of p.now sets.now) v (machine_of r cells.old marks.old journal.now) }
{
    let at = r.pc as usize;
    let next = plain(p, cells, at);
    if next != 0 {
        r.pc = next;
        return r;
    }
    match p[at] {
        DIV => stop(r, DIVISOR),
        READ => read(r, p, cells, v),
        EMIT => emit(r),
        EXCLUDE => exclude_all(r, p, table, sets, marks),
        CHECKPOINT => begin_save(r, p, marks, journal),
        _ => stop(r, ENDED),
    }
}

// The step that is due.
pub fn step(
    r: Regs,
    p: &[u8],
    table: &[u8; 2048],
    sets: &[u64],
    cells: &mut [u32; 256],
    marks: &mut [u8; 256],
    journal: &mut [u8],
    v: i32,
) -> Regs
    requires { Ready (env_of p.now sets.now) table.now × Good p.now (machine_of r cells.old marks.old journal.old) × (r.stop ≡ 0) }
    ensures { machine_of result cells.new marks.new journal.new ≡ step_of (env_of p.now sets.now) v (machine_of r cells.old marks.old journal.old) }
{
    if 0 < r.erase {
        return erase_one(r, journal);
    }
    if 0 < r.saving {
        return store_one(r, p, cells, marks, journal);
    }
    execute(r, p, table, sets, cells, marks, journal, v)
}
