// A run (document 01: "Run is given a budget of steps and repeats steps"): the refusals, and steps of crate `step` until an
// exit. Proved, for any program, words, state, journal, readings, outputs' places and budget: answer and buffers are
// `CallIs` of specs/Run.antt.
#![tactic(auto)]

mod quiet;
mod run;
mod stretch;

ghost use Rattle.std.specs.Prelude.{◌≡◌, List, ℕ, length, get_or, decimal, Some};
ghost use Rattle.program.specs.Places.{Places};
ghost use Rattle.program.specs.Refusal.{number_if};
ghost use Rattle.step.specs.State.{env_of, machine_of};
ghost use Rattle.run.specs.Run.{late_refusal_of, stood, ran, answer_of, ended_of, CallIs};
ghost use Rattle.step.specs.Ready.{Legal};

use journal::pages::is_length;
use program::examine;
use program::places::blank;
use program::refusal::Refusal;
use run::run;
use std::fmt;
use step::sound::sound;
use step::{Regs, State};

// How a run ended: stopped with its kind, budget spent, no reading left, output buffer full.
#[derive(Clone, Copy, PartialEq, Eq)]
pub enum Ended {
    Stopped(u32),
    Spent,
    NoReading,
    BufferFull,
}

// The numbers of include/pitskelo.h: 1 to 3 a stop and its kind, then 4 to 6.
impl From<Ended> for u32 {
    ghost from_gives = { λ ended number. number ≡ get_or (answer_of (ended_of ended)).values 0 0 };

    fn from(ended: Ended) -> u32 {
        match ended {
            Ended::Stopped(kind) => kind,
            Ended::Spent => 4,
            Ended::NoReading => 5,
            Ended::BufferFull => 6,
        }
    }
}

impl fmt::Display for Ended {
    ghost output = { λ ended. Some (decimal (get_or (answer_of (ended_of ended)).values 0 0)) };

    fn fmt<W: fmt::Write>(&self, f: &mut fmt::Formatter<W>) -> fmt::Result {
        write!(f, "{}", u32::from(*self))
    }
}

// Where a run stands: its registers, steps, readings taken and outputs written.
#[derive(Clone, Copy)]
pub struct Pass {
    pub regs: Regs,
    pub steps: u64,
    pub taken: usize,
    pub written: usize,
}

// Where a run ended, and how.
#[derive(Clone, Copy)]
pub struct Stand {
    pub pass: Pass,
    pub ended: Ended,
}

// What a call of run gives back: the state, how the run ended, and this call's steps, readings taken and
// outputs written.
#[derive(Clone, Copy)]
pub struct Ran {
    pub state: State,
    pub ended: Ended,
    pub steps: u64,
    pub taken: usize,
    pub written: usize,
}

// The refusals 9 to 11, for an accepted program and its table of places.
fn refuse_late(
    r: Regs,
    program: &[u8],
    table: &[u8; 2048],
    words: usize,
    cells: &[u32; 256],
    marks: &[u8; 256],
    len: usize,
) -> Result<(), Refusal>
    requires { Legal program.now × Places program.now table.now }
    ensures { (l : List ℕ) → length l ≡ len → number_if result ≡ late_refusal_of program.now words (machine_of r cells.now marks.now l) }
{
    if words < 512 {
        return Err(Refusal::ShortWords);
    }
    if !sound(r, program, table, cells, marks, len) {
        return Err(Refusal::UnsoundState);
    }
    if !is_length(len, r.page) {
        return Err(Refusal::ChipLength);
    }
    Ok(())
}

// The run of an accepted program on cells and marks that are lent, which the refusals 9 to 11 may still prevent.
pub fn run_in_place(
    start: Regs,
    program: &[u8],
    table: &[u8; 2048],
    sets: &[u64],
    cells: &mut [u32; 256],
    marks: &mut [u8; 256],
    journal: &mut [u8],
    readings: &[i32],
    outputs: &mut [i32],
    budget: u64,
) -> Result<Stand, Refusal>
    requires { Legal program.now × Places program.now table.now × (length cells.old ≡ 256) × (length marks.old ≡ 256) }
    ensures { CallIs (env_of program.now sets.now) readings.now budget (machine_of start cells.old marks.old journal.old) outputs.old (stood start result cells.new marks.new journal.new outputs.new) }
{
    refuse_late(
        start,
        program,
        table,
        sets.len(),
        cells,
        marks,
        journal.len(),
    )?;
    Ok(run(
        start, budget, readings, program, table, sets, cells, marks, journal, outputs,
    ))
}

// The run of an accepted program on a state by value.
fn run_legal(
    state: State,
    program: &[u8],
    table: &[u8; 2048],
    sets: &[u64],
    journal: &mut [u8],
    readings: &[i32],
    outputs: &mut [i32],
    budget: u64,
) -> Result<Ran, Refusal>
    requires { Legal program.now × Places program.now table.now }
    ensures { CallIs (env_of program.now sets.now) readings.now budget (machine_of state.regs state.cells state.marks journal.old) outputs.old (ran (machine_of state.regs state.cells state.marks journal.new) result journal.new outputs.new) }
{
    let regs = state.regs;
    let mut cells = state.cells;
    let mut marks = state.marks;
    let end = run_in_place(
        regs, program, table, sets, &mut cells, &mut marks, journal, readings, outputs, budget,
    )?;
    let pass = end.pass;
    let regs = pass.regs;
    Ok(Ran {
        state: State { regs, cells, marks },
        ended: end.ended,
        steps: pass.steps,
        taken: pass.taken,
        written: pass.written,
    })
}

// A run, or a refusal that alters nothing.
pub fn run_value(
    state: State,
    program: &[u8],
    sets: &[u64],
    journal: &mut [u8],
    readings: &[i32],
    outputs: &mut [i32],
    budget: u64,
) -> Result<Ran, Refusal>
    ensures { CallIs (env_of program.now sets.now) readings.now budget (machine_of state.regs state.cells state.marks journal.old) outputs.old (ran (machine_of state.regs state.cells state.marks journal.new) result journal.new outputs.new) }
{
    let mut table = blank();
    examine(program, &mut table)?;
    run_legal(
        state, program, &table, sets, journal, readings, outputs, budget,
    )
}

// A run with a budget of one step.
pub fn step_value(
    state: State,
    program: &[u8],
    sets: &[u64],
    journal: &mut [u8],
    readings: &[i32],
    outputs: &mut [i32],
) -> Result<Ran, Refusal>
    ensures { CallIs (env_of program.now sets.now) readings.now 1 (machine_of state.regs state.cells state.marks journal.old) outputs.old (ran (machine_of state.regs state.cells state.marks journal.new) result journal.new outputs.new) }
{
    run_value(state, program, sets, journal, readings, outputs, 1)
}
