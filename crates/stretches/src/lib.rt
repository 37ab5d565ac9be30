// A run over readings and outputs of any length: stretches of a fixed size are decoded into local
// buffers and handed to the machine, each from the next untaken reading on, and are together the one
// run over all (proofs/Stretches.antt).
#![tactic(auto)]

ghost use Rattle.std.specs.Prelude.{[], ◌≡◌, ◌+◌, ◌-◌, ◌/◌, ◌≤◌, ◌<◌, length};
ghost use Rattle.program.specs.Places.{Places};
ghost use Rattle.step.specs.State.{env_of, machine_of};
ghost use Rattle.step.specs.Ready.{Legal};
ghost use Rattle.run.specs.Standing.{Within};
ghost use Rattle.layout.specs.Numbers.{signed_of};
ghost use Rattle.run.specs.Run.{ended_of, stood};
ghost use Rattle.stretches.specs.Stretches.{Lends, goes_on_of, StretchOf, WholeOf};

use layout::{load_signed, store_signed};
use program::refusal::Refusal;
use run::{Ended, Pass, Stand, run_in_place};
use step::Regs;

// How many of the rest a stretch gets: no more than its buffer has room for, nor than the budget can use.
fn at_most(rest: usize, budget: u64, room: usize) -> usize
    requires { 0 < room }
    ensures { Lends rest budget result × (result ≤ room) }
{
    (rest.min(room) as u64).min(budget) as usize
}

// One stretch of a run that stands at `b`: over the readings behind those taken and the places behind those written,
// decoded into `values` and `places`. Its numbers are its own.
fn stretch(
    b: Pass,
    plan: &[u8],
    table: &[u8; 2048],
    sets: &[u64],
    cells: &mut [u32; 256],
    marks: &mut [u8; 256],
    chip: &mut [u8],
    readings: &[u8],
    outputs: &mut [u8],
    budget: u64,
    values: &mut [i32],
    places: &mut [i32],
) -> Result<Stand, Refusal>
    requires { Legal plan.now × Places plan.now table.now × (length cells.old ≡ 256) × (length marks.old ≡ 256) × (0 < length values.old) × (0 < length places.old) × Within b budget (length readings.now / 4) (length outputs.old / 4) }
    ensures { StretchOf (env_of plan.now sets.now) (signed_of readings.now) (budget - b.steps) b.taken b.written (machine_of b.regs cells.old marks.old chip.old) outputs.old (stood b.regs result cells.new marks.new chip.new []) outputs.new }
{
    let left = budget - b.steps;
    let n = at_most(readings.len() / 4 - b.taken, left, values.len());
    let m = at_most(outputs.len() / 4 - b.written, left, places.len());
    load_signed(readings, 4 * b.taken, values, n);
    let ran = run_in_place(
        b.regs,
        plan,
        table,
        sets,
        cells,
        marks,
        chip,
        &values[..n],
        &mut places[..m],
        left,
    )?;
    store_signed(outputs, 4 * b.written, places, ran.pass.written);
    Ok(ran)
}

// Whether a run that stands so goes on with the next stretch: a reading is left, or a place.
fn goes_on(at: Stand, readings: usize, places: usize) -> bool
    ensures { result ≡ goes_on_of (ended_of at.ended) readings at.pass.taken places at.pass.written }
{
    match at.ended {
        Ended::Stopped(_) | Ended::Spent => false,
        Ended::NoReading => at.pass.taken < readings,
        Ended::BufferFull => at.pass.written < places,
    }
}

// A run that stood at `b`, with a stretch more.
fn joined(b: Pass, next: Stand) -> Stand
    requires { (b.steps + next.pass.steps ≤ 18446744073709551615) × (b.taken + next.pass.taken ≤ 18446744073709551615) × (b.written + next.pass.written ≤ 18446744073709551615) }
    ensures { result ≡ record { pass = record { regs = next.pass.regs; steps = b.steps + next.pass.steps; taken = b.taken + next.pass.taken; written = b.written + next.pass.written }; ended = next.ended } }
{
    let pass = Pass {
        steps: b.steps + next.pass.steps,
        taken: b.taken + next.pass.taken,
        written: b.written + next.pass.written,
        ..next.pass
    };
    Stand { pass, ..next }
}

// Stretch after stretch, through the buffers `values` and `places`.
fn run_by(
    regs: Regs,
    plan: &[u8],
    table: &[u8; 2048],
    sets: &[u64],
    cells: &mut [u32; 256],
    marks: &mut [u8; 256],
    chip: &mut [u8],
    readings: &[u8],
    outputs: &mut [u8],
    budget: u64,
    values: &mut [i32],
    places: &mut [i32],
) -> Result<Stand, Refusal>
    requires { Legal plan.now × Places plan.now table.now × (length cells.old ≡ 256) × (length marks.old ≡ 256) × (0 < length values.old) × (0 < length places.old) }
    ensures { WholeOf (env_of plan.now sets.now) (signed_of readings.now) budget (machine_of regs cells.old marks.old chip.old) outputs.old (stood regs result cells.new marks.new chip.new []) outputs.new × (length cells.new ≡ 256) × (length marks.new ≡ 256) }
{
    let n = readings.len() / 4;
    let m = outputs.len() / 4;
    let mut b = Pass {
        regs,
        steps: 0,
        taken: 0,
        written: 0,
    };
    loop {
        let next = stretch(
            b, plan, table, sets, cells, marks, chip, readings, outputs, budget, values, places,
        )?;
        let at = joined(b, next);
        if !goes_on(at, n, m) {
            return Ok(at);
        }
        b = at.pass;
    }
}

// Whether short buffers do: the budget is used up with them, or they hold all.
fn is_short(readings: usize, outputs: usize, budget: u64) -> bool {
    budget <= 16 || (readings <= 64 && outputs <= 64)
}

// The run over all, through buffers that are no longer than need be: clearing them is most of what a call of one step
// would cost.
pub fn run_all(
    regs: Regs,
    plan: &[u8],
    table: &[u8; 2048],
    sets: &[u64],
    cells: &mut [u32; 256],
    marks: &mut [u8; 256],
    chip: &mut [u8],
    readings: &[u8],
    outputs: &mut [u8],
    budget: u64,
) -> Result<Stand, Refusal>
    requires { Legal plan.now × Places plan.now table.now × (length cells.old ≡ 256) × (length marks.old ≡ 256) }
    ensures { WholeOf (env_of plan.now sets.now) (signed_of readings.now) budget (machine_of regs cells.old marks.old chip.old) outputs.old (stood regs result cells.new marks.new chip.new []) outputs.new × (length cells.new ≡ 256) × (length marks.new ≡ 256) }
{
    if is_short(readings.len(), outputs.len(), budget) {
        let mut values = [0i32; 16];
        let mut places = [0i32; 16];
        run_by(
            regs,
            plan,
            table,
            sets,
            cells,
            marks,
            chip,
            readings,
            outputs,
            budget,
            &mut values,
            &mut places,
        )
    } else {
        let mut values = [0i32; 1024];
        let mut places = [0i32; 1024];
        run_by(
            regs,
            plan,
            table,
            sets,
            cells,
            marks,
            chip,
            readings,
            outputs,
            budget,
            &mut values,
            &mut places,
        )
    }
}
