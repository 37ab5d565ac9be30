// Runs document 01's small plan through `machine`, whose functions take the state by `&mut`: twice a power-up, the
// second after a cut inside a save. `lend` lends the state, and its contract says what each call leaves. A line
// to a call gives its answer, eight registers and the plan's three cells: of recovery 0 or the number of its refusal,
// of a step or a run how it ended (1 to 3 a stop and its kind, 4 budget spent, 5 no reading left, 6 output buffer
// full, or `refused` and the number), its steps, readings taken and outputs written. Last stand outputs and chip.
#![tactic(auto)]

ghost use Rattle.step.specs.State.{env_of};
ghost use Rattle.lent_run.specs.PowerUp.{PowersUp};

use journal::owners::owner_of;
use machine::Passed;
use program::refusal::Refusal;
use std::io;
use step::{Regs, State};
use word::from_bits;

// What the calls of a power-up answer, and the state that each leaves.
#[derive(Clone, Copy)]
struct Powered {
    recovered: Result<(), Refusal>,
    found: State,
    first: Result<Passed, Refusal>,
    stepped: State,
    rest: Result<Passed, Refusal>,
    state: State,
}

// A power-up on a byte chip whose MARKs name the owner: recovery, a step and a run, all on the one state that lives
// here. Here the step, at the plan's start or at a torn save, takes no reading and gives no output, so the run is lent
// the same readings and outputs.
fn lend(
    mut state: State,
    program: &[u8],
    sets: &[u64],
    journal: &mut [u8],
    readings: &[i32],
    outputs: &mut [i32],
    budget: u64,
    owner: u32,
) -> Powered
    ensures { PowersUp (env_of program.now sets.now) readings.now budget owner state journal.old outputs.old result journal.new outputs.new }
{
    let recovered = machine::recover(&mut state, program, sets, journal, 1, owner);
    let found = state;
    let first = machine::step(&mut state, program, sets, journal, readings, outputs);
    let stepped = state;
    let rest = machine::run(
        &mut state, program, sets, journal, readings, outputs, budget,
    );
    Powered {
        recovered,
        found,
        first,
        stepped,
        rest,
        state,
    }
}

// What a cut may leave in memory; recovery overwrites it.
fn spoiled() -> State {
    State {
        regs: Regs {
            pc: 3,
            exclude: 5,
            readings: 7,
            outputs: 9,
            stop: 2,
            write: 61,
            erase: 4,
            saving: 6,
            page: 1,
            owner: 8,
        },
        cells: [0xdead_beefu32; 256],
        marks: [9u8; 256],
    }
}

fn answer(rt: &impl Print, recovered: Result<(), Refusal>) -> io::Result<()> {
    let number = match recovered {
        Ok(()) => 0,
        Err(refusal) => u32::from(refusal),
    };
    print!(rt; " {number}")
}

// A refused call has no numbers, so 0 stands for each.
fn passed(rt: &impl Print, answer: Result<Passed, Refusal>) -> io::Result<()> {
    match answer {
        Ok(passed) => {
            let ended = passed.ended;
            print!(rt;
                " {ended} {} {} {}",
                passed.steps, passed.taken, passed.written
            )
        }
        Err(refusal) => {
            let number = u32::from(refusal);
            print!(rt; " refused {number} 0 0 0")
        }
    }
}

// The registers in the order of their declaration, but for the page length and the owner, which are no part of the
// bytes that a host lends, and the three cells.
fn left(rt: &impl Print, s: State) -> io::Result<()> {
    let r = s.regs;
    let cells = s.cells;
    print!(rt;
        " registers {} {} {} {}",
        r.pc, r.exclude, r.readings, r.outputs
    )?;
    print!(rt; " {} {} {} {}", r.stop, r.write, r.erase, r.saving)?;
    print!(rt;
        " cells {} {} {}\n",
        from_bits(cells[0]),
        from_bits(cells[1]),
        from_bits(cells[2])
    )
}

fn calls(rt: &impl Print, p: Powered) -> io::Result<()> {
    rt.write_all(b"recover:")?;
    answer(rt, p.recovered)?;
    left(rt, p.found)?;
    rt.write_all(b"step:")?;
    passed(rt, p.first)?;
    left(rt, p.stepped)?;
    rt.write_all(b"run:")?;
    passed(rt, p.rest)?;
    left(rt, p.state)
}

fn outputs_given(rt: &impl Print, outputs: &[i32; 3]) -> io::Result<()> {
    rt.write_all(b"outputs")?;
    for value in outputs {
        print!(rt; " {value}")?;
    }
    rt.write_all(b"\n")
}

// The bytes of a save in two hexadecimal digits each, as document 01 writes a save.
fn save(rt: &impl Print, bytes: &[u8]) -> io::Result<()> {
    rt.write_all(b"chip")?;
    for byte in bytes {
        print!(rt; " {byte:02x}")?;
    }
    rt.write_all(b"\n")
}

// The small plan on this chip, from any state.
fn power_up(rt: &impl Print, readings: &[i32], chip: &mut [u8; 72], budget: u64) -> io::Result<()> {
    let mut sets = [0u64; 512];
    sets[0] = 6;
    sets[4] = 4;
    let mut outputs = [0i32; 3];
    let plan = b"\x02\x02\x00\x00\x00\x00\x00\x07\x01\x04\x00\x00\x01\x08\x00\x0D\x0E\x09\x07\x00";
    let p = lend(
        spoiled(),
        plan,
        &sets,
        chip,
        readings,
        &mut outputs,
        budget,
        owner_of(plan),
    );
    calls(rt, p)?;
    outputs_given(rt, &outputs)?;
    for bytes in chip.chunks(24) {
        save(rt, bytes)?;
    }
    Ok(())
}

// The first budget ends where 33 bytes of saves are stored, 24 of the first and 9 of the second. The first save counts
// one reading, so after the cut the host lends from the second one on.
fn main(rt: HostRuntime) -> io::Result<()> {
    let mut chip = [0xffu8; 72];
    power_up(&rt, &[5, 7, -2], &mut chip, 44)?;
    power_up(&rt, &[7, -2], &mut chip, 1000)
}
