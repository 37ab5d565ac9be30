// A run: steps until one of the four exits, the inner loop wherever it can.
ghost use Rattle.std.specs.Prelude.{◌≡◌, true, List, ℕ, ◌+◌, ◌-◌, ◌<◌, ◌≤◌, ℤ, pos, length, get_or, drop, replicate, None, option_map};
ghost use Rattle.std.proofs.lemmas.List.Edits.{sets};
ghost use Rattle.instruction.specs.Bytes.{byte};
ghost use Rattle.program.specs.Places.{is_start};
ghost use Rattle.execution.specs.Effects.{cells_in};
ghost use Rattle.run.specs.Quiet.{regs_at};
ghost use Rattle.step.specs.State.{env_of, machine_of};
ghost use Rattle.step.specs.Step.{due_opcode_of};
ghost use Rattle.run.specs.Run.{ended_of, exit_before_of};
ghost use Rattle.step.specs.Ready.{Legal, Ready, Good};
ghost use Rattle.run.specs.Standing.{Within, standing, RushIs, TurnIs, RunIs};

use crate::quiet::{Flow, quiet};
use crate::stretch::store_some;
use crate::{Ended, Pass, Stand};
use instruction::byte_at;
use instruction::opcodes::{EMIT, READ};
use step::{Regs, step};
use word::from_bits;

// How many more a count can take, of n that are there.
fn most(count: u32, n: usize) -> usize
    ensures { (result ≤ n) × (count + result ≤ 4294967295) }
{
    n.min((u32::MAX - count) as usize)
}

// The opcode of the instruction that is due, 0 where a byte is erased or stored.
fn due_opcode(r: Regs, p: &[u8]) -> u8
    requires { r.pc < length p.now }
    ensures { (xs ms l : List ℕ) → result ≡ due_opcode_of p.now (machine_of r xs ms l) }
{
    if 0 < r.erase || 0 < r.saving {
        return 0;
    }
    p[r.pc as usize]
}

// The exit before the next step, with n readings lent and places for so many outputs: the four in their order.
fn exit_before(b: Pass, left: u64, n: usize, room: usize, p: &[u8]) -> Option<Ended>
    requires { b.regs.pc < length p.now }
    ensures { (xs ms l : List ℕ) (outs : List ℤ) → b.written ≤ length outs → option_map ended_of result ≡ exit_before_of p.now left n room (standing b xs ms l outs) }
{
    let stop = b.regs.stop;
    if stop != 0 {
        return Some(Ended::Stopped(stop));
    }
    if left == 0 {
        return Some(Ended::Spent);
    }
    let due = due_opcode(b.regs, p);
    if due == READ && b.taken == n {
        return Some(Ended::NoReading);
    }
    if due == EMIT && b.written == room {
        return Some(Ended::BufferFull);
    }
    None
}

// The first reading, 0 where there is none.
fn first(readings: &[i32]) -> i32
    ensures { result ≡ get_or readings.now 0 (pos 0) }
{
    readings.first().copied().unwrap_or(0)
}

// The cell that an EMIT at the place would give; 0 past the program's end.
fn emitted_cell(p: &[u8], cells: &[u32; 256], pc: u32) -> u32
    requires { pc < 4096 }
    ensures { result ≡ cells_in cells.now (byte p.now (pc + 1)) }
{
    cells[byte_at(p, pc as usize + 1) as usize]
}

// Puts n values, none or one, to the place `to`.
fn put_output(outputs: &mut [i32], to: usize, n: u32, v: i32)
    requires { (n ≤ 1) × (to + n ≤ length outputs.old) }
    ensures { outputs.new ≡ sets outputs.old to (replicate n v) }
{
    if n != 0 {
        outputs[to] = v;
    }
}

// The run after the inner loop.
fn moved(b: Pass, f: Flow) -> Pass
    requires { (b.steps + f.steps ≤ 18446744073709551615) × (b.taken + f.taken ≤ 18446744073709551615) × (b.written + f.written ≤ 18446744073709551615) × (b.regs.readings + f.taken ≤ 4294967295) × (b.regs.outputs + f.written ≤ 4294967295) }
    ensures { result ≡ record { regs = regs_at b.regs f; steps = b.steps + f.steps; taken = b.taken + f.taken; written = b.written + f.written } }
{
    let mut r = b.regs;
    r.pc = f.pc;
    r.readings += f.taken as u32;
    r.outputs += f.written as u32;
    Pass {
        regs: r,
        steps: b.steps + f.steps,
        taken: b.taken + f.taken,
        written: b.written + f.written,
    }
}

// The inner loop, where the machine has not stopped and nothing is to be erased or stored.
fn rush(
    b: Pass,
    budget: u64,
    readings: &[i32],
    p: &[u8],
    cells: &mut [u32; 256],
    outputs: &mut [i32],
) -> Pass
    requires { Legal p.now × (is_start p.now b.regs.pc ≡ true) × Within b budget (length readings.now) (length outputs.old) }
    ensures { RushIs p.now readings.now budget b cells.old outputs.old result cells.new outputs.new }
{
    let r = b.regs;
    if r.stop != 0 || r.erase != 0 || r.saving != 0 {
        return b;
    }
    let rest = &readings[b.taken..];
    let takes = most(r.readings, rest.len());
    let gives = most(r.outputs, outputs.len() - b.written);
    let f = quiet(
        p,
        cells,
        rest,
        outputs,
        b.written,
        r.pc,
        budget - b.steps,
        takes,
        gives,
    );
    moved(b, f)
}

// One step of any kind; the readings are those from the next untaken one on.
fn turn(
    b: Pass,
    readings: &[i32],
    p: &[u8],
    table: &[u8; 2048],
    sets: &[u64],
    cells: &mut [u32; 256],
    marks: &mut [u8; 256],
    journal: &mut [u8],
    outputs: &mut [i32],
) -> Pass
    requires { Ready (env_of p.now sets.now) table.now × Good p.now (machine_of b.regs cells.old marks.old journal.old) × (b.steps < 18446744073709551615) × (b.taken + length readings.now ≤ 18446744073709551615) × (b.written ≤ length outputs.old) × (exit_before_of p.now 1 (b.taken + length readings.now) (length outputs.old) (standing b cells.old marks.old journal.old outputs.old) ≡ None) }
    ensures { (ρ : List ℤ) → drop b.taken ρ ≡ readings.now → b.taken ≤ length ρ → TurnIs (env_of p.now sets.now) ρ (standing b cells.old marks.old journal.old outputs.old) outputs.old result (standing result cells.new marks.new journal.new outputs.new) outputs.new }
{
    let r = b.regs;
    let q = step(r, p, table, sets, cells, marks, journal, first(readings));
    let took = q.readings - r.readings;
    let gave = q.outputs - r.outputs;
    put_output(
        outputs,
        b.written,
        gave,
        from_bits(emitted_cell(p, cells, r.pc)),
    );
    Pass {
        regs: q,
        steps: b.steps + 1,
        taken: b.taken + took as usize,
        written: b.written + gave as usize,
    }
}

// Steps until an exit.
pub fn run(
    start: Regs,
    budget: u64,
    readings: &[i32],
    p: &[u8],
    table: &[u8; 2048],
    sets: &[u64],
    cells: &mut [u32; 256],
    marks: &mut [u8; 256],
    journal: &mut [u8],
    outputs: &mut [i32],
) -> Stand
    requires { Ready (env_of p.now sets.now) table.now × Good p.now (machine_of start cells.old marks.old journal.old) }
    ensures { RunIs (env_of p.now sets.now) readings.now budget (machine_of start cells.old marks.old journal.old) outputs.old (ended_of result.ended) result.pass (standing result.pass cells.new marks.new journal.new outputs.new) outputs.new }
{
    let mut b = Pass {
        regs: start,
        steps: 0,
        taken: 0,
        written: 0,
    };
    loop {
        b = rush(b, budget, readings, p, cells, outputs);
        b = store_some(b, budget, p, cells, marks, journal);
        if let Some(ended) = exit_before(b, budget - b.steps, readings.len(), outputs.len(), p) {
            return Stand { pass: b, ended };
        }
        b = turn(
            b,
            &readings[b.taken..],
            p,
            table,
            sets,
            cells,
            marks,
            journal,
            outputs,
        );
    }
}
