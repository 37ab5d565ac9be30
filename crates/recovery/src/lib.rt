// Recovery (document 01: "Every run begins with recovery, on an erased chip too"): the state that a
// journal holds. `recover_value` takes any program, words, journal, page length, owner and state, and gives the
// state that the one reading of the journal makes, or a refusal that alters nothing: `RecoverIs` of specs/Recover.antt.
// What that state is good for is proved in crate `restart`.
#![tactic(auto)]

ghost use Rattle.std.specs.Prelude.{◌≡◌, true, ◌⊎◌, ◌+◌, ◌≤◌};
ghost use Rattle.journal.specs.Format.{unowned, format_for};
ghost use Rattle.journal.specs.Answer.{facts_in};
ghost use Rattle.program.specs.Refusal.{refusal_number};
ghost use Rattle.program.specs.Places.{Places, is_exclude};
ghost use Rattle.step.specs.State.{env_of, machine_of};
ghost use Rattle.step.specs.Ready.{Legal, Ready};
ghost use Rattle.recovery.specs.Recover.{regs_of, marks_by_of, recovered, Older, Recovers, RecoverIs};

use instruction::byte_at;
use journal::owners::UNOWNED;
use journal::{Commit, Unreadable, scan};
use marks::recover;
use program::examine;
use program::places::{blank, place_at};
use program::refusal::Refusal;
use step::{Regs, State};

// The registers: the last commit's, with the pages of torn bytes behind the whole checkpoints to erase.
fn regs_of(end: usize, torn: usize, last: Commit, page: u32, owner: u32) -> Regs
    requires { (end ≤ 65536) × (torn ≤ 65536) }
    ensures { result ≡ regs_of end torn last page owner }
{
    Regs {
        pc: last.place as u32,
        exclude: last.exclude as u32,
        readings: last.readings,
        outputs: last.outputs,
        stop: 0,
        write: end as u32,
        erase: torn as u32,
        saving: 0,
        page: page as usize,
        owner,
    }
}

// The marks by the last EXCLUDE, which stands at offset x, or is none where x is 0.
fn marks_by(program: &[u8], table: &[u8; 2048], sets: &[u64], x: usize) -> [u8; 256]
    requires { Ready (env_of program.now sets.now) table.now × ((x ≡ 0) ⊎ (is_exclude program.now x ≡ true)) }
    ensures { result ≡ marks_by_of (env_of program.now sets.now) x }
{
    let mut marks = [0u8; 256];
    if x != 0 {
        let number = place_at(table, x).exclude.unwrap();
        recover(
            &mut marks,
            sets,
            8 * usize::from(number),
            byte_at(program, 0) as usize + 1,
        );
    }
    marks
}

// The refusal of a journal that is damaged as one of the owner's: the older one where it reads with MARKs that name
// no plan and one of them is whole.
pub fn damaged_as(journal: &[u8], highest: u8, table: &[u8; 2048], page: usize) -> Refusal
    ensures { Older (facts_in (format_for page unowned) (highest + 1) table.now) journal.now (refusal_number result) }
{
    match scan(journal, highest, table, page, UNOWNED) {
        Ok(found) => {
            if 0 < found.end {
                Refusal::OlderMarks
            } else {
                Refusal::DamagedChip
            }
        }
        Err(_) => Refusal::DamagedChip,
    }
}

// The recovery for an accepted program, which the other refusals may still prevent.
fn recover_legal(
    mut state: State,
    program: &[u8],
    table: &[u8; 2048],
    sets: &[u64],
    journal: &[u8],
    page: u32,
    owner: u32,
) -> Result<State, Refusal>
    requires { Legal program.now × Places program.now table.now }
    ensures { Recovers (env_of program.now sets.now) page owner (machine_of state.regs state.cells state.marks journal.now) (recovered (machine_of state.regs state.cells state.marks journal.now) result) }
{
    if sets.len() < 512 {
        return Err(Refusal::ShortWords);
    }
    let highest = byte_at(program, 0);
    let found = match scan(journal, highest, table, page as usize, owner) {
        Ok(found) => found,
        Err(Unreadable::BadLength) => return Err(Refusal::ChipLength),
        Err(Unreadable::Damaged) => {
            return Err(damaged_as(journal, highest, table, page as usize));
        }
    };
    if !found.own {
        return Err(Refusal::AnotherPlan);
    }
    let cells = found.values;
    let marks = marks_by(program, table, sets, found.last.exclude as usize);
    state.regs = regs_of(found.end, found.torn, found.last, page, owner);
    state.cells = cells;
    state.marks = marks;
    Ok(state)
}

// Recovery from a journal on a chip with pages of so many bytes, whose MARKs are to name the owner (0: MARKs that
// name none), over a state, or a refusal; nothing is stored on the journal.
pub fn recover_value(
    state: State,
    program: &[u8],
    sets: &[u64],
    journal: &[u8],
    page: u32,
    owner: u32,
) -> Result<State, Refusal>
    ensures { RecoverIs (env_of program.now sets.now) page owner (machine_of state.regs state.cells state.marks journal.now) (recovered (machine_of state.regs state.cells state.marks journal.now) result) }
{
    let mut table = blank();
    examine(program, &mut table)?;
    recover_legal(state, program, &table, sets, journal, page, owner)
}
