// The entries of the C interface of the plan engine, on numbers and byte slices; crate `pitskelo_c` exports
// each under its name, as include/pitskelo.h declares it. The result is 0 where a call is accepted, else the
// refusal's number of document 01; a refused call alters nothing that was lent.
#![tactic(auto)]

mod words;

ghost use Rattle.std.specs.Prelude.{[], ◌∷◌, ◌/◌, ◌≤◌, min, length, ◌≡◌};
ghost use Rattle.pitskelo.specs.Calls.{CheckCall, AnalyseCall};
ghost use Rattle.program.specs.Refusal.{refusal_number, number_if};
ghost use Rattle.pitskelo.specs.Storing.{BothStored};
ghost use Rattle.pitskelo.specs.Runs.{odd_state_of, run_call_of, RecoverCall};
ghost use Rattle.pitskelo.specs.Folds.{FoldCall};
ghost use Rattle.pitskelo.specs.Notes.{SpentCall};

use folding::fold;
use journal::owners::owner_of;
use layout::{load_cells, load_marks, load_regs, load_state, load_words, store_parts, store_state};
use notes::spent;
use program::examine;
use program::places::blank;
use program::refusal::Refusal;
use recovery::recover_value;
use stretches::run_all;
use words::store_words;

// The result of a call that is accepted.
const ACCEPTED: u32 = 0;

// The result of a call: 0, or the refusal's number.
fn number_of(answer: Result<(), Refusal>) -> u32
    ensures { result ≡ number_if answer }
{
    match answer {
        Ok(()) => ACCEPTED,
        Err(refusal) => u32::from(refusal),
    }
}

// The check of a plan, whose numbers are stored.
fn check_lent(
    plan: &[u8],
    cells: &mut u32,
    commands: &mut u32,
    excludes: &mut u32,
) -> Result<(), Refusal>
    ensures { CheckCall plan.now (cells.old ∷ commands.old ∷ excludes.old ∷ []) (cells.new ∷ commands.new ∷ excludes.new ∷ []) (number_if result) }
{
    let sizes = program::check(plan)?;
    *cells = sizes.cells;
    *commands = sizes.instructions;
    *excludes = sizes.excludes;
    Ok(())
}

// Checks a plan and gives its numbers of cells, commands and EXCLUDEs.
pub fn pitskelo_check(plan: &[u8], cells: &mut u32, commands: &mut u32, excludes: &mut u32) -> u32
    ensures { CheckCall plan.now (cells.old ∷ commands.old ∷ excludes.old ∷ []) (cells.new ∷ commands.new ∷ excludes.new ∷ []) result }
{
    number_of(check_lent(plan, cells, commands, excludes))
}

// Stores the first m words of d and the first n of s where both buffers are long enough.
fn store_both(
    dead: &mut [u8],
    sets: &mut [u8],
    d: &[u64],
    m: usize,
    s: &[u64],
    n: usize,
) -> Result<(), Refusal>
    requires { (m ≤ length d.now) × (m ≤ 2048) × (n ≤ length s.now) × (n ≤ 512) }
    ensures { BothStored dead.old sets.old d.now m s.now n dead.new sets.new (number_if result) }
{
    if dead.len() / 8 < 2048 || sets.len() / 8 < 512 {
        return Err(Refusal::ShortWords);
    }
    store_words(dead, d, m);
    store_words(sets, s, n);
    Ok(())
}

// The analysis of a plan, whose sets are stored.
fn analyse_lent(plan: &[u8], dead: &mut [u8], sets: &mut [u8]) -> Result<(), Refusal>
    ensures { AnalyseCall plan.now dead.old sets.old dead.new sets.new (number_if result) }
{
    let mut d = [0u64; 2048];
    let mut s = [0u64; 512];
    let sizes = analysis::analyse(plan, &mut d, &mut s)?;
    store_both(
        dead,
        sets,
        &d,
        4 * sizes.instructions as usize,
        &s,
        8 * sizes.excludes as usize,
    )
}

// Analyses a plan into two buffers of 64-bit words: the dead sets, and DE and RO of each EXCLUDE.
pub fn pitskelo_analyse(plan: &[u8], dead: &mut [u8], sets: &mut [u8]) -> u32
    ensures { AnalyseCall plan.now dead.old sets.old dead.new sets.new result }
{
    number_of(analyse_lent(plan, dead, sets))
}

// The refusal of a call that lends a state of another length: the plan's, else that of the words, else the state's.
fn odd_state(plan: &[u8], sets: &[u8]) -> Refusal
    ensures { refusal_number result ≡ odd_state_of plan.now sets.now }
{
    match program::check(plan) {
        Err(refusal) => refusal,
        Ok(_) => {
            if sets.len() / 8 < 512 {
                Refusal::ShortWords
            } else {
                Refusal::UnsoundState
            }
        }
    }
}

// How many words a buffer of sets holds, of those that are wanted.
fn word_count(sets: &[u8]) -> usize
    ensures { result ≡ min (length sets.now / 8) 512 }
{
    (sets.len() / 8).min(512)
}

// How many bytes a byte chip stores as a unit.
const BYTE: u32 = 1;

// How many bytes a page chip stores as a unit.
const PAGE: u32 = 16;

// Restores the state that a chip with pages of so many bytes holds; the lent state's bytes are overwritten.
fn recover_lent(
    page: u32,
    plan: &[u8],
    sets: &[u8],
    chip: &[u8],
    state: &mut [u8],
) -> Result<(), Refusal>
    ensures { RecoverCall page plan.now sets.now chip.now state.old state.new (number_if result) }
{
    if state.len() != 1312 {
        return Err(odd_state(plan, sets));
    }
    let n = word_count(sets);
    let words = load_words(sets, n);
    let owner = owner_of(plan);
    let after = recover_value(
        load_state(state, page, owner),
        plan,
        &words[..n],
        chip,
        page,
        owner,
    )?;
    store_state(state, after);
    Ok(())
}

// Restores the state that a byte chip holds.
pub fn pitskelo_recover(plan: &[u8], sets: &[u8], chip: &[u8], state: &mut [u8]) -> u32
    ensures { RecoverCall 1 plan.now sets.now chip.now state.old state.new result }
{
    number_of(recover_lent(BYTE, plan, sets, chip, state))
}

// Restores the state that a page chip holds.
pub fn pitskelo_page_recover(plan: &[u8], sets: &[u8], chip: &[u8], state: &mut [u8]) -> u32
    ensures { RecoverCall 16 plan.now sets.now chip.now state.old state.new result }
{
    number_of(recover_lent(PAGE, plan, sets, chip, state))
}

// Runs the plan from the lent state for at most `budget` steps.
fn run_lent(
    page: u32,
    plan: &[u8],
    sets: &[u8],
    chip: &mut [u8],
    state: &mut [u8],
    readings: &[u8],
    outputs: &mut [u8],
    budget: u64,
    ended: &mut u32,
    steps: &mut u64,
    taken: &mut u64,
    given: &mut u64,
) -> Result<(), Refusal>
    ensures { record { result = number_if result; chip = chip.new; state = state.new; outputs = outputs.new; numbers = ended.new ∷ steps.new ∷ taken.new ∷ given.new ∷ [] } ≡ run_call_of (record { page = page; plan = plan.now; sets = sets.now; chip = chip.old; state = state.old; readings = readings.now; outputs = outputs.old; budget = budget; numbers = ended.old ∷ steps.old ∷ taken.old ∷ given.old ∷ [] }) }
{
    if state.len() != 1312 {
        return Err(odd_state(plan, sets));
    }
    let mut table = blank();
    examine(plan, &mut table)?;
    let n = word_count(sets);
    let words = load_words(sets, n);
    let mut cells = load_cells(state);
    let mut marks = load_marks(state);
    let ran = run_all(
        load_regs(state, page, owner_of(plan)),
        plan,
        &table,
        &words[..n],
        &mut cells,
        &mut marks,
        chip,
        readings,
        outputs,
        budget,
    )?;
    let pass = ran.pass;
    store_parts(state, pass.regs, &cells[..], &marks[..]);
    *ended = u32::from(ran.ended);
    *steps = pass.steps;
    *taken = pass.taken as u64;
    *given = pass.written as u64;
    Ok(())
}

// Runs the plan on a byte chip, from the lent state for at most `budget` steps.
pub fn pitskelo_run(
    plan: &[u8],
    sets: &[u8],
    chip: &mut [u8],
    state: &mut [u8],
    readings: &[u8],
    outputs: &mut [u8],
    budget: u64,
    ended: &mut u32,
    steps: &mut u64,
    taken: &mut u64,
    given: &mut u64,
) -> u32
    ensures { record { result = result; chip = chip.new; state = state.new; outputs = outputs.new; numbers = ended.new ∷ steps.new ∷ taken.new ∷ given.new ∷ [] } ≡ run_call_of (record { page = 1; plan = plan.now; sets = sets.now; chip = chip.old; state = state.old; readings = readings.now; outputs = outputs.old; budget = budget; numbers = ended.old ∷ steps.old ∷ taken.old ∷ given.old ∷ [] }) }
{
    number_of(run_lent(
        BYTE, plan, sets, chip, state, readings, outputs, budget, ended, steps, taken, given,
    ))
}

// The same on a page chip.
pub fn pitskelo_page_run(
    plan: &[u8],
    sets: &[u8],
    chip: &mut [u8],
    state: &mut [u8],
    readings: &[u8],
    outputs: &mut [u8],
    budget: u64,
    ended: &mut u32,
    steps: &mut u64,
    taken: &mut u64,
    given: &mut u64,
) -> u32
    ensures { record { result = result; chip = chip.new; state = state.new; outputs = outputs.new; numbers = ended.new ∷ steps.new ∷ taken.new ∷ given.new ∷ [] } ≡ run_call_of (record { page = 16; plan = plan.now; sets = sets.now; chip = chip.old; state = state.old; readings = readings.now; outputs = outputs.old; budget = budget; numbers = ended.old ∷ steps.old ∷ taken.old ∷ given.old ∷ [] }) }
{
    number_of(run_lent(
        PAGE, plan, sets, chip, state, readings, outputs, budget, ended, steps, taken, given,
    ))
}

// The fold of an old byte chip onto a new one, whose numbers are stored.
fn fold_lent(
    plan: &[u8],
    sets: &[u8],
    old: &[u8],
    new: &mut [u8],
    stored: u64,
    budget: u64,
    after: &mut u64,
    finished: &mut u32,
) -> Result<(), Refusal>
    ensures { FoldCall (record { plan = plan.now; sets = sets.now; old = old.now; new = new.old; stored = stored; budget = budget; numbers = after.old ∷ finished.old ∷ [] }) (record { result = number_if result; new = new.new; numbers = after.new ∷ finished.new ∷ [] }) }
{
    let count = word_count(sets);
    let words = load_words(sets, count);
    let standing = fold(
        plan,
        &words[..count],
        old,
        new,
        stored as usize,
        budget as usize,
    )?;
    *after = standing.stored as u64;
    *finished = u32::from(standing.finished);
    Ok(())
}

// Folds an old byte chip onto a new one: the next bytes of its one save, at most `budget`.
pub fn pitskelo_fold(
    plan: &[u8],
    sets: &[u8],
    old: &[u8],
    new: &mut [u8],
    stored: u64,
    budget: u64,
    after: &mut u64,
    finished: &mut u32,
) -> u32
    ensures { FoldCall (record { plan = plan.now; sets = sets.now; old = old.now; new = new.old; stored = stored; budget = budget; numbers = after.old ∷ finished.old ∷ [] }) (record { result = result; new = new.new; numbers = after.new ∷ finished.new ∷ [] }) }
{
    number_of(fold_lent(plan, sets, old, new, stored, budget, after, finished))
}

// Tells whether a note may stand at a place of a chip with pages of so many bytes.
fn spent_lent(page: u32, plan: &[u8], chip: &[u8], place: u64, may: &mut u32) -> Result<(), Refusal>
    ensures { SpentCall page plan.now chip.now place (may.old ∷ []) (may.new ∷ []) (number_if result) }
{
    *may = u32::from(spent(plan, chip, page, owner_of(plan), place as usize)?);
    Ok(())
}

// Tells whether a note may stand at a place of a byte chip.
pub fn pitskelo_spent(plan: &[u8], chip: &[u8], place: u64, may: &mut u32) -> u32
    ensures { SpentCall 1 plan.now chip.now place (may.old ∷ []) (may.new ∷ []) result }
{
    number_of(spent_lent(BYTE, plan, chip, place, may))
}

// The same of a page chip.
pub fn pitskelo_page_spent(plan: &[u8], chip: &[u8], place: u64, may: &mut u32) -> u32
    ensures { SpentCall 16 plan.now chip.now place (may.old ∷ []) (may.new ∷ []) result }
{
    number_of(spent_lent(PAGE, plan, chip, place, may))
}
