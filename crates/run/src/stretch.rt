// The pages of a save, as many at once as the budget allows: the checkpoint is made once, and not for every byte. It
// only saves time: where it does nothing, the general step goes on.
ghost use Rattle.std.specs.Prelude.{◌≡◌, List, ℕ, ◌+◌, ◌-◌, ◌<◌, ◌≤◌, min, length, take, drop};
ghost use Rattle.std.proofs.lemmas.List.Edits.{sets};
ghost use Rattle.instruction.specs.Bytes.{byte};
ghost use Rattle.step.specs.State.{machine_of, image_at};
ghost use Rattle.step.specs.Ready.{Good};
ghost use Rattle.run.specs.Stretch.{stored_regs, StoreIs};

use crate::Pass;
use execution::after;
use instruction::opcodes::CHECKPOINT;
use journal::Commit;
use journal::owners::kind_of;
use journal::pages::count_pages;
use journal::writing::image_into;
use marks::{keep, stored_cells};
use step::{Regs, cell_count};

// m bytes of the buffer, from `from` on, go to the journal, from `to` on.
fn copy(journal: &mut [u8], to: usize, buffer: &[u8; 1584], from: usize, m: usize)
    requires { (to + m ≤ length journal.old) × (from + m ≤ 1584) × (length buffer.now ≡ 1584) × (length journal.old ≤ 65536) }
    ensures { journal.new ≡ sets journal.old to (take m (drop from buffer.now)) }
{
    journal[to..to + m].copy_from_slice(&buffer[from..from + m]);
}

fn least(a: usize, b: u64) -> usize
    ensures { result ≡ min a b }
{
    (a as u64).min(b) as usize
}

// Makes the checkpoint of the present state, and gives its length.
fn make(r: Regs, p: &[u8], cells: &[u32; 256], marks: &[u8; 256], buffer: &mut [u8; 1584]) -> usize
    requires { (r.pc < 2048) × (r.exclude < 2048) × (byte p.now r.pc ≡ 0x0E) × (0 < r.page) × (r.page ≤ 16) }
    ensures { (result ≤ 1584) × ((l : List ℕ) → (result ≡ length (image_at p.now (machine_of r cells.now marks.now l))) × (buffer.new ≡ sets buffer.old 0 (image_at p.now (machine_of r cells.now marks.now l)))) }
{
    let n = cell_count(p);
    let s = stored_cells(marks, n);
    let commit = Commit {
        place: after(r.pc as usize, CHECKPOINT) as u16,
        exclude: r.exclude as u16,
        readings: r.readings,
        outputs: r.outputs,
        owner: r.owner,
    };
    image_into(buffer, s, cells, commit, n, r.page, kind_of(r.owner))
}

// The registers after m more bytes of a save of `total`.
fn stored(mut r: Regs, m: usize, total: usize) -> Regs
    requires { (r.pc < 2048) × (0 < r.saving) × (r.saving - 1 + m ≤ total) × (total ≤ 1584) × (r.write + m ≤ 65536) }
    ensures { result ≡ stored_regs r m total }
{
    r.write += m as u32;
    if r.saving as usize - 1 + m == total {
        r.pc = after(r.pc as usize, CHECKPOINT);
        r.saving = 0;
        return r;
    }
    r.saving += m as u32;
    r
}

// Stores what the budget allows of the save at work, if the budget makes it worth while.
pub fn store_some(
    b: Pass,
    budget: u64,
    p: &[u8],
    cells: &[u32; 256],
    marks: &mut [u8; 256],
    journal: &mut [u8],
) -> Pass
    requires { Good p.now (machine_of b.regs cells.now marks.old journal.old) × (length p.now ≤ 2048) × (b.steps ≤ budget) }
    ensures { StoreIs p.now budget cells.now b marks.old journal.old result marks.new journal.new }
{
    let r = b.regs;
    if r.stop != 0 || r.saving == 0 {
        return b;
    }
    let page = r.page;
    // The whole checkpoint is made for 16 bytes or more: for fewer the general step costs less.
    if budget - b.steps < count_pages(16, page) as u64 {
        return b;
    }
    let mut buffer = [0u8; 1584];
    let total = make(r, p, cells, marks, &mut buffer);
    let from = r.saving as usize - 1;
    let pages = least(count_pages(total - from, page), budget - b.steps);
    let m = pages * page;
    copy(journal, r.write as usize, &buffer, from, m);
    if from + m == total {
        keep(marks, cell_count(p));
    }
    Pass {
        regs: stored(r, m, total),
        steps: b.steps + pages as u64,
        taken: b.taken,
        written: b.written,
    }
}
