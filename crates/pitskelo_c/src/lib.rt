// The C interface, declared in include/pitskelo.h: each entry of crate `pitskelo` under its own name, with its
// own clauses. A slice is a pointer and then a length.
#![tactic(auto)]

ghost use Rattle.std.specs.Prelude.{[], ◌∷◌, ◌≡◌};
ghost use Rattle.pitskelo.specs.Calls.{CheckCall, AnalyseCall};
ghost use Rattle.pitskelo.specs.Runs.{run_call_of, RecoverCall};
ghost use Rattle.pitskelo.specs.Folds.{FoldCall};
ghost use Rattle.pitskelo.specs.Notes.{SpentCall};

// Checks a plan and gives its numbers of cells, commands and EXCLUDEs.
#[unsafe(no_mangle)]
pub extern "C" fn pitskelo_check(
    plan: &[u8],
    cells: &mut u32,
    commands: &mut u32,
    excludes: &mut u32,
) -> u32
    ensures { CheckCall plan.now (cells.old ∷ commands.old ∷ excludes.old ∷ []) (cells.new ∷ commands.new ∷ excludes.new ∷ []) result }
{
    pitskelo::pitskelo_check(plan, cells, commands, excludes)
}

// Analyses a plan into two buffers of 64-bit words: the dead sets, and DE and RO of each EXCLUDE.
#[unsafe(no_mangle)]
pub extern "C" fn pitskelo_analyse(plan: &[u8], dead: &mut [u8], sets: &mut [u8]) -> u32
    ensures { AnalyseCall plan.now dead.old sets.old dead.new sets.new result }
{
    pitskelo::pitskelo_analyse(plan, dead, sets)
}

// Restores the state that a byte chip holds.
#[unsafe(no_mangle)]
pub extern "C" fn pitskelo_recover(plan: &[u8], sets: &[u8], chip: &[u8], state: &mut [u8]) -> u32
    ensures { RecoverCall 1 plan.now sets.now chip.now state.old state.new result }
{
    pitskelo::pitskelo_recover(plan, sets, chip, state)
}

// Restores the state that a page chip holds.
#[unsafe(no_mangle)]
pub extern "C" fn pitskelo_page_recover(
    plan: &[u8],
    sets: &[u8],
    chip: &[u8],
    state: &mut [u8],
) -> u32
    ensures { RecoverCall 16 plan.now sets.now chip.now state.old state.new result }
{
    pitskelo::pitskelo_page_recover(plan, sets, chip, state)
}

// Runs the plan on a byte chip, from the lent state for at most `budget` steps.
#[unsafe(no_mangle)]
pub extern "C" fn pitskelo_run(
    plan: &[u8],
    sets: &[u8],
    chip: &mut [u8],
    state: &mut [u8],
    readings: &[u8],
    outputs: &mut [u8],
    budget: u64,
    ended: &mut u32,
    steps: &mut u64,
    taken: &mut u64,
    given: &mut u64,
) -> u32
    ensures { record { result = result; chip = chip.new; state = state.new; outputs = outputs.new; numbers = ended.new ∷ steps.new ∷ taken.new ∷ given.new ∷ [] } ≡ run_call_of (record { page = 1; plan = plan.now; sets = sets.now; chip = chip.old; state = state.old; readings = readings.now; outputs = outputs.old; budget = budget; numbers = ended.old ∷ steps.old ∷ taken.old ∷ given.old ∷ [] }) }
{
    pitskelo::pitskelo_run(
        plan, sets, chip, state, readings, outputs, budget, ended, steps, taken, given,
    )
}

// The same on a page chip.
#[unsafe(no_mangle)]
pub extern "C" fn pitskelo_page_run(
    plan: &[u8],
    sets: &[u8],
    chip: &mut [u8],
    state: &mut [u8],
    readings: &[u8],
    outputs: &mut [u8],
    budget: u64,
    ended: &mut u32,
    steps: &mut u64,
    taken: &mut u64,
    given: &mut u64,
) -> u32
    ensures { record { result = result; chip = chip.new; state = state.new; outputs = outputs.new; numbers = ended.new ∷ steps.new ∷ taken.new ∷ given.new ∷ [] } ≡ run_call_of (record { page = 16; plan = plan.now; sets = sets.now; chip = chip.old; state = state.old; readings = readings.now; outputs = outputs.old; budget = budget; numbers = ended.old ∷ steps.old ∷ taken.old ∷ given.old ∷ [] }) }
{
    pitskelo::pitskelo_page_run(
        plan, sets, chip, state, readings, outputs, budget, ended, steps, taken, given,
    )
}

// Folds an old byte chip onto a new one: the next bytes of its one save, at most `budget`.
#[unsafe(no_mangle)]
pub extern "C" fn pitskelo_fold(
    plan: &[u8],
    sets: &[u8],
    old: &[u8],
    new: &mut [u8],
    stored: u64,
    budget: u64,
    after: &mut u64,
    finished: &mut u32,
) -> u32
    ensures { FoldCall (record { plan = plan.now; sets = sets.now; old = old.now; new = new.old; stored = stored; budget = budget; numbers = after.old ∷ finished.old ∷ [] }) (record { result = result; new = new.new; numbers = after.new ∷ finished.new ∷ [] }) }
{
    pitskelo::pitskelo_fold(plan, sets, old, new, stored, budget, after, finished)
}

// Tells whether a note may stand at a place of a byte chip.
#[unsafe(no_mangle)]
pub extern "C" fn pitskelo_spent(plan: &[u8], chip: &[u8], place: u64, may: &mut u32) -> u32
    ensures { SpentCall 1 plan.now chip.now place (may.old ∷ []) (may.new ∷ []) result }
{
    pitskelo::pitskelo_spent(plan, chip, place, may)
}

// The same of a page chip.
#[unsafe(no_mangle)]
pub extern "C" fn pitskelo_page_spent(plan: &[u8], chip: &[u8], place: u64, may: &mut u32) -> u32
    ensures { SpentCall 16 plan.now chip.now place (may.old ∷ []) (may.new ∷ []) result }
{
    pitskelo::pitskelo_page_spent(plan, chip, place, may)
}
