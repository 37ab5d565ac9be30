// Folding (document 02, Q-6): what a full byte chip holds goes onto a blank one as one checkpoint (save), by
// steps of one byte. The old chip's MARKs name the plan, or none (Q-8); those of the new one name it. `fold`
// takes any program, words, chips and numbers, and is `FoldIs` of specs/Fold.antt; specs/Lists.antt states what
// every list of its calls and cuts leaves, and proofs/Theorem.antt has it. That a batch goes on with the new
// chip is proved in crate `batch`.
#![tactic(auto)]

ghost use Rattle.std.specs.Prelude.{◌≡◌, true, ◌+◌, ◌≤◌, min, length, take};
ghost use Rattle.cellset.specs.Sets.{SetIs};
ghost use Rattle.program.specs.Places.{Places};
ghost use Rattle.journal.specs.Format.{chip_length, unowned, format_for};
ghost use Rattle.journal.specs.Answer.{facts_in};
ghost use Rattle.journal.specs.Parts.{Decides};
ghost use Rattle.step.specs.State.{env_of};
ghost use Rattle.step.specs.Ready.{Legal};
ghost use Rattle.folding.specs.Fold.{held_bit, cell_if_of, BlankFrom, named_for, folded_bytes, folded_of, outcome, progress, fold_steps, Begun, Puts, FoldsOlder, Folds, FoldIs};

use cellset::{CellSet, empty, single, union};
use instruction::byte_at;
use journal::owners::{UNOWNED, kind_of, owner_of};
use journal::pages::is_length;
use journal::writing::image_into;
use journal::{Commit, Contents, ERASED, Unreadable, scan};
use program::examine;
use program::places::blank;
use program::refusal::Refusal;

// How many bytes of the save now stand on the new chip, and whether these are all.
#[derive(Clone, Copy)]
pub struct Standing {
    pub stored: usize,
    pub finished: bool,
}

// How many bytes a byte chip stores as a unit.
const BYTE: usize = 1;

// The cell c, none where its value is 0.
fn cell_if(c: u8, value: u32) -> CellSet
    ensures { SetIs result.words (cell_if_of c value) }
{
    if value == 0 { empty() } else { single(c) }
}

// The cells whose value is not 0.
fn held(values: &[u32; 256]) -> CellSet
    ensures { SetIs result.words (held_bit values.now) }
{
    let mut s = empty();
    for (c, value) in values.iter().enumerate() {
        s = union(s, cell_if(c as u8, *value));
    }
    s
}

// The last commit, in a plan's name.
fn named(last: Commit, owner: u32) -> Commit
    ensures { result ≡ named_for owner last }
{
    Commit { owner, ..last }
}

// The save of what a chip holds, in the owner's name, from the buffer's start on: no bytes where its whole
// checkpoints end at 0. Gives the number of bytes.
fn save_into(buffer: &mut [u8; 1584], owner: u32, found: &Contents) -> usize
    ensures { (take result buffer.new ≡ folded_bytes owner found.now.end found.now.values found.now.last) × (result ≤ length buffer.new) }
{
    if found.end == 0 {
        return 0;
    }
    image_into(
        buffer,
        held(&found.values),
        &found.values,
        named(found.last, owner),
        256,
        BYTE,
        kind_of(owner),
    )
}

// Whether all bytes are FF: whether the least of them is. The chain has no early way out, so that the compiler
// takes many bytes at a time.
fn is_blank(l: &[u8]) -> bool
    ensures { Decides (BlankFrom l.now 0) result }
{
    l.iter().fold(ERASED, |least, byte| least.min(*byte)) == ERASED
}

// Whether the new chip has that many bytes of the save and then FF.
fn begun(save: &[u8], new: &[u8], stored: usize) -> bool
    ensures { Decides (Begun save.now stored new.now) result }
{
    stored <= save.len().min(new.len())
        && new[..stored] == save[..stored]
        && is_blank(&new[stored..])
}

// Stores the next bytes of the save upward until budget or save is spent; gives how many stand there now.
fn store(save: &[u8], new: &mut [u8], stored: usize, budget: usize) -> usize
    requires { (stored ≤ length save.now) × (length save.now ≤ length new.old) }
    ensures { progress new.new result ≡ fold_steps save.now budget (progress new.old stored) }
{
    let end = stored + budget.min(save.len() - stored);
    new[stored..end].copy_from_slice(&save[stored..end]);
    end
}

// The save of what was read goes onto the new chip, unless that holds something else or is too short.
fn fold_found(
    owner: u32,
    found: &Contents,
    new: &mut [u8],
    stored: usize,
    budget: usize,
) -> Result<Standing, Refusal>
    ensures { Puts (folded_bytes owner found.now.end found.now.values found.now.last) new.old stored budget (outcome (folded_of result) new.new) }
{
    let mut buffer = [0; 1584];
    let size = save_into(&mut buffer, owner, found);
    let save = &buffer[..size];
    if !begun(save, new, stored) {
        return Err(Refusal::OtherSave);
    }
    if new.len() < size {
        return Err(Refusal::SmallChip);
    }
    let after = store(save, new, stored, budget);
    Ok(Standing {
        stored: after,
        finished: after == size,
    })
}

// An old chip that is damaged as one of the plan's is read with MARKs that name none.
fn fold_older(
    owner: u32,
    old: &[u8],
    highest: u8,
    table: &[u8; 2048],
    new: &mut [u8],
    stored: usize,
    budget: usize,
) -> Result<Standing, Refusal>
    requires { chip_length 1 (length old.now) ≡ true }
    ensures { FoldsOlder (facts_in (format_for 1 unowned) (highest + 1) table.now) owner old.now new.old stored budget (outcome (folded_of result) new.new) }
{
    match scan(old, highest, table, BYTE, UNOWNED) {
        Ok(found) => fold_found(owner, &found, new, stored, budget),
        Err(_) => Err(Refusal::DamagedChip),
    }
}

// Folding for an accepted program, which the other refusals may still prevent.
fn fold_legal(
    program: &[u8],
    table: &[u8; 2048],
    sets: &[u64],
    old: &[u8],
    new: &mut [u8],
    stored: usize,
    budget: usize,
) -> Result<Standing, Refusal>
    requires { Legal program.now × Places program.now table.now }
    ensures { Folds (env_of program.now sets.now) old.now new.old stored budget (outcome (folded_of result) new.new) }
{
    if sets.len() < 512 {
        return Err(Refusal::ShortWords);
    }
    if !is_length(new.len(), BYTE) {
        return Err(Refusal::ChipLength);
    }
    let owner = owner_of(program);
    let highest = byte_at(program, 0);
    let found = match scan(old, highest, table, BYTE, owner) {
        Ok(found) => found,
        Err(Unreadable::BadLength) => return Err(Refusal::ChipLength),
        Err(Unreadable::Damaged) => {
            return fold_older(owner, old, highest, table, new, stored, budget);
        }
    };
    if !found.own {
        return Err(Refusal::AnotherPlan);
    }
    fold_found(owner, &found, new, stored, budget)
}

// Folding: the next bytes of the old chip's one save go onto the new chip, or a refusal alters nothing.
pub fn fold(
    program: &[u8],
    sets: &[u64],
    old: &[u8],
    new: &mut [u8],
    stored: usize,
    budget: usize,
) -> Result<Standing, Refusal>
    ensures { FoldIs (env_of program.now sets.now) old.now new.old stored budget (outcome (folded_of result) new.new) }
{
    let mut table = blank();
    examine(program, &mut table)?;
    fold_legal(program, &table, sets, old, new, stored, budget)
}
