// Notes in spent cells (document 02, Q-14): the service desk may change the four value bytes of a record whose
// cell is dead at the CHECKPOINT of the last whole checkpoint (save). `spent` takes any program, chip, page
// length, owner and place, and tells whether a note may stand there: `SpentIs` of specs/Notes.antt. That a batch
// goes on with such a chip is proved in crate `batch`.
#![tactic(auto)]

ghost use Rattle.std.specs.Prelude.{◌≡◌, true, List, ◌++◌, ℕ, ◌≤◌, ◌<◌, length};
ghost use Rattle.instruction.specs.Bytes.{cells_of};
ghost use Rattle.program.specs.Places.{Places, is_start};
ghost use Rattle.graph.specs.Tables.{count_of, start_of};
ghost use Rattle.analysis.specs.Paths.{Dead};
ghost use Rattle.journal.specs.Format.{format_of, kind_number, Checkpoint, images};
ghost use Rattle.journal.specs.Parts.{Decides};
ghost use Rattle.step.specs.Ready.{Legal};
ghost use Rattle.notes.specs.Notes.{NotePlace, told_of, SpentIs, CellAt, ReadTo};

use analysis::analyse;
use cellset::{contains, load};
use instruction::byte_at;
use instruction::opcodes::{length_in, length_table};
use journal::owners::{Kind, kind_of};
use journal::pages::fill;
use journal::{RECORD, Unreadable, scan};
use program::examine;
use program::places::blank;
use program::refusal::Refusal;
use recovery::damaged_as;

// The cell of the record whose value stands at `at`, of the whole checkpoints that end at `end`: a walk from
// record to record and over each MARK with its filling.
fn record_at(chip: &[u8], end: usize, page: usize, kind: Kind, at: usize) -> Option<u8>
    requires { (end ≤ length chip.now) × (length chip.now ≤ 65536) × (0 < page) × (page ≤ 16) }
    ensures { (owner : ℕ) (saves : List Checkpoint) (rest : List ℕ) → chip.now ≡ images (format_of page (kind_number kind) owner) saves ++ rest → end ≡ length (images (format_of page (kind_number kind) owner) saves) → CellAt (format_of page (kind_number kind) owner) saves at result }
{
    let mut i = 0;
    while i < end {
        if chip[i] == RECORD {
            if i + 2 == at {
                return Some(byte_at(chip, i + 1));
            }
            i += 6;
        } else {
            let mark = i + kind.mark_size();
            i = mark + fill(mark, page);
        }
    }
    None
}

// The number of the instruction that starts at offset o, in the order of the offsets.
fn number_of(program: &[u8], o: usize) -> usize
    requires { Legal program.now × (is_start program.now o ≡ true) }
    ensures { (result < count_of program.now) × (start_of program.now result ≡ o) }
{
    let lengths = length_table();
    let mut here = 1;
    let mut number: usize = 0;
    while here < o {
        here += length_in(&lengths, program[here]);
        number += 1;
    }
    number
}

// Whether the cell is dead before the instruction at offset o.
fn is_dead(program: &[u8], o: usize, cell: u8) -> bool
    requires { Legal program.now × (is_start program.now o ≡ true) × (cell < cells_of program.now) }
    ensures { Decides (Dead program.now cell o) result }
{
    let mut dead = [0u64; 2048];
    let mut sets = [0u64; 512];
    // An accepted program is not refused.
    let _ = analyse(program, &mut dead, &mut sets);
    contains(load(&dead, 4 * number_of(program, o)), cell)
}

// Whether a note may stand at `at` on a chip that recovery reads: its whole checkpoints end at `end`, and the
// last has the offset `place`.
fn may_stand(
    program: &[u8],
    chip: &[u8],
    end: usize,
    place: usize,
    page: usize,
    owner: u32,
    at: usize,
) -> bool
    requires { Legal program.now × ReadTo page owner program.now chip.now end place }
    ensures { Decides (NotePlace page owner program.now chip.now at) result }
{
    match record_at(chip, end, page, kind_of(owner), at) {
        Some(cell) => is_dead(program, place - 1, cell),
        None => false,
    }
}

// The answer for an accepted program: whether a note may stand there, or recovery's refusal of the chip.
fn spent_legal(
    program: &[u8],
    table: &[u8; 2048],
    chip: &[u8],
    page: u32,
    owner: u32,
    at: usize,
) -> Result<bool, Refusal>
    requires { Legal program.now × Places program.now table.now }
    ensures { SpentIs program.now page owner chip.now at (told_of result) }
{
    let highest = byte_at(program, 0);
    let found = match scan(chip, highest, table, page as usize, owner) {
        Ok(found) => found,
        Err(Unreadable::BadLength) => return Err(Refusal::ChipLength),
        Err(Unreadable::Damaged) => return Err(damaged_as(chip, highest, table, page as usize)),
    };
    if !found.own {
        return Err(Refusal::AnotherPlan);
    }
    Ok(may_stand(
        program,
        chip,
        found.end,
        found.last.place as usize,
        page as usize,
        owner,
        at,
    ))
}

// Whether a note may stand at the four bytes from `at` on, on a chip with pages of so many bytes whose MARKs are
// to name the owner (0: MARKs that name none), or recovery's refusal of the program or the chip.
pub fn spent(program: &[u8], chip: &[u8], page: u32, owner: u32, at: usize) -> Result<bool, Refusal>
    ensures { SpentIs program.now page owner chip.now at (told_of result) }
{
    let mut table = blank();
    examine(program, &mut table)?;
    spent_legal(program, &table, chip, page, owner, at)
}
