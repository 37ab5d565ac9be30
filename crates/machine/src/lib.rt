// The machine, its state lent by the host (document 01: "The machine's state is lent by the host and altered
// there"): `step`, `run` and `recover` take it by `&mut`, copy it out, call `run`'s and `recovery`'s functions
// by value, and store back the state that these return, if any. Proved of each, for any state and any buffers:
// the state at exit, the journal, the outputs and the answer are those that the definitions of `run` and
// `recovery` make of the state at entry, `CallIs` and `RecoverIs`, the same that the functions by value meet.
// After a refusal that is the state at entry.
#![tactic(auto)]

ghost use Rattle.std.specs.Prelude.{◌≡◌, List, ℕ, ℤ};
ghost use Rattle.step.specs.State.{env_of, machine_of};
ghost use Rattle.run.specs.Run.{ran, CallIs};
ghost use Rattle.recovery.specs.Recover.{RecoverIs};
ghost use Rattle.machine.specs.Lent.{passed, restored};

use program::refusal::Refusal;
use recovery::recover_value;
use run::{Ended, Ran, run_value, step_value};
use step::State;

// What a call of step or run answers: how the run ended, and this call's steps, readings taken and
// outputs written.
#[derive(Clone, Copy)]
pub struct Passed {
    pub ended: Ended,
    pub steps: u64,
    pub taken: usize,
    pub written: usize,
}

// Stores the state that a step or a run gives back, if any, and answers the rest.
fn kept(state: &mut State, answer: Result<Ran, Refusal>) -> Result<Passed, Refusal>
    ensures { (l : List ℕ) (outs : List ℤ) → passed result (machine_of state.new.regs state.new.cells state.new.marks l) outs ≡ ran (machine_of state.old.regs state.old.cells state.old.marks l) answer l outs }
{
    let ran = answer?;
    *state = ran.state;
    Ok(Passed {
        ended: ran.ended,
        steps: ran.steps,
        taken: ran.taken,
        written: ran.written,
    })
}

// One step, in the state lent.
pub fn step(
    state: &mut State,
    program: &[u8],
    sets: &[u64],
    journal: &mut [u8],
    readings: &[i32],
    outputs: &mut [i32],
) -> Result<Passed, Refusal>
    ensures { CallIs (env_of program.now sets.now) readings.now 1 (machine_of state.old.regs state.old.cells state.old.marks journal.old) outputs.old (passed result (machine_of state.new.regs state.new.cells state.new.marks journal.new) outputs.new) }
{
    let answer = step_value(*state, program, sets, journal, readings, outputs);
    kept(state, answer)
}

// A run, in the state lent.
pub fn run(
    state: &mut State,
    program: &[u8],
    sets: &[u64],
    journal: &mut [u8],
    readings: &[i32],
    outputs: &mut [i32],
    budget: u64,
) -> Result<Passed, Refusal>
    ensures { CallIs (env_of program.now sets.now) readings.now budget (machine_of state.old.regs state.old.cells state.old.marks journal.old) outputs.old (passed result (machine_of state.new.regs state.new.cells state.new.marks journal.new) outputs.new) }
{
    let answer = run_value(*state, program, sets, journal, readings, outputs, budget);
    kept(state, answer)
}

// Recovery from a journal on a chip with pages of so many bytes, whose MARKs are to name the owner, into the
// state lent.
pub fn recover(
    state: &mut State,
    program: &[u8],
    sets: &[u64],
    journal: &[u8],
    page: u32,
    owner: u32,
) -> Result<(), Refusal>
    ensures { RecoverIs (env_of program.now sets.now) page owner (machine_of state.old.regs state.old.cells state.old.marks journal.now) (restored result (machine_of state.new.regs state.new.cells state.new.marks journal.now)) }
{
    *state = recover_value(*state, program, sets, journal, page, owner)?;
    Ok(())
}
