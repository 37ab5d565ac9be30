// Rows about runs. A row gives how the run ended (1 to 3 a stop and its kind, 4 budget spent, 5 no reading left, 6
// output buffer full, or `refused` and the number), its steps, readings taken and outputs written, the
// outputs, and the bytes of the chip; for document 001's programs, the number of its cells and of those in each save.
use journal::owners::owner_of;
use program::refusal::Refusal;
use run::{Ran, run_value};
use std::io;
use step::{Regs, State};

pub fn number(rt: &impl Print, n: u32) -> io::Result<()> {
    print!(rt; " {n}")
}

// A refused run has no numbers, so 0 stands for each.
fn answer(rt: &impl Print, ran: Result<Ran, Refusal>) -> io::Result<()> {
    match ran {
        Ok(ran) => {
            let ended = ran.ended;
            print!(rt; " {ended} {} {} {}", ran.steps, ran.taken, ran.written)
        }
        Err(refusal) => {
            rt.write_all(b" refused")?;
            number(rt, u32::from(refusal))?;
            print!(rt; " 0 0 0")
        }
    }
}

fn values(rt: &impl Print, outputs: &[i32]) -> io::Result<()> {
    rt.write_all(b" outputs")?;
    for value in outputs {
        print!(rt; " {value}")?;
    }
    Ok(())
}

// Those of a chip that is not too long to print.
fn bytes(rt: &impl Print, chip: &[u8]) -> io::Result<()> {
    if 64 < chip.len() {
        return Ok(());
    }
    rt.write_all(b" chip")?;
    for byte in chip {
        print!(rt; " {byte}")?;
    }
    Ok(())
}

// What recovery leaves on an erased byte chip for a plan, with this write position and these counts.
pub fn state(plan: &[u8], write: u32, readings: u32, outputs: u32) -> State {
    State {
        regs: Regs {
            pc: 1,
            exclude: 0,
            readings,
            outputs,
            stop: 0,
            write,
            erase: 0,
            saving: 0,
            page: 1,
            owner: owner_of(plan),
        },
        cells: [0u32; 256],
        marks: [0u8; 256],
    }
}

// A run on a state, with the words of the small plan's EXCLUDE.
fn run(
    rt: &impl Print,
    name: &[u8],
    plan: &[u8],
    words: usize,
    chip: &mut [u8],
    s: State,
    readings: &[i32],
    outputs: &mut [i32],
    budget: u64,
) -> io::Result<()> {
    let mut sets = [0u64; 512];
    sets[0] = 6;
    sets[4] = 4;
    if 512 < words {
        return Ok(());
    }
    let ran = run_value(s, plan, &sets[..words], chip, readings, outputs, budget);
    rt.write_all(name)?;
    rt.write_all(b":")?;
    answer(rt, ran)?;
    values(rt, outputs)?;
    bytes(rt, chip)?;
    rt.write_all(b"\n")
}

fn small(
    rt: &impl Print,
    name: &[u8],
    chip: &mut [u8],
    readings: &[i32],
    outputs: &mut [i32],
    budget: u64,
) -> io::Result<()> {
    run(
        rt,
        name,
        b"\x02\x02\x00\x00\x00\x00\x00\x07\x01\x04\x00\x00\x01\x08\x00\x0D\x0E\x09\x07\x00",
        512,
        chip,
        state(
            b"\x02\x02\x00\x00\x00\x00\x00\x07\x01\x04\x00\x00\x01\x08\x00\x0D\x0E\x09\x07\x00",
            0,
            0,
            0,
        ),
        readings,
        outputs,
        budget,
    )
}

// The small plan: its outputs, its first save, and the chips of 24 and 23 bytes.
fn saves(rt: &impl Print) -> io::Result<()> {
    let mut outputs = [0i32; 3];
    let mut none = [0xffu8; 0];
    small(
        rt,
        b"readings 5 7 -2",
        &mut none,
        &[5, 7, -2],
        &mut outputs,
        1000,
    )?;
    let mut output = [0i32; 1];
    let mut chip = [0xffu8; 24];
    small(rt, b"24 bytes of chip", &mut chip, &[5], &mut output, 1000)?;
    let mut short = [0xffu8; 23];
    small(rt, b"23 bytes of chip", &mut short, &[5], &mut output, 1000)?;
    let mut long = [0xffu8; 48];
    let mut two = [0i32; 3];
    small(rt, b"cut inside a save", &mut long, &[5, 7], &mut two, 40)
}

// Each exit; the later output places remain.
fn exits(rt: &impl Print) -> io::Result<()> {
    let mut none = [0xffu8; 0];
    let mut outputs = [7i32; 2];
    small(rt, b"no budget", &mut none, &[5], &mut outputs, 0)?;
    small(rt, b"budget spent", &mut none, &[5], &mut outputs, 3)?;
    small(rt, b"no reading left", &mut none, &[5], &mut outputs, 1000)?;
    let mut room = [7i32; 0];
    small(rt, b"output buffer full", &mut none, &[5], &mut room, 1000)
}

// A plan from the first state with these counts, on no chip.
fn plain(rt: &impl Print, name: &[u8], plan: &[u8], readings: u32, outputs: u32) -> io::Result<()> {
    let mut none = [0xffu8; 0];
    let mut given = [7i32; 1];
    run(
        rt,
        name,
        plan,
        512,
        &mut none,
        state(plan, 0, readings, outputs),
        &[3],
        &mut given,
        100,
    )
}

// Each stop, and the table's arithmetic: 7 / -2, the least value / -1, the greatest value + 1, index -1 of 4.
fn stops(rt: &impl Print) -> io::Result<()> {
    plain(rt, b"ended", b"\x00\x01", 0, 0)?;
    plain(rt, b"divisor", b"\x01\x06\x00\x00\x01\x01", 0, 0)?;
    plain(rt, b"readings full", b"\x00\x07\x00\x01", 0xffff_ffff, 0)?;
    plain(rt, b"outputs full", b"\x00\x08\x00\x01", 0, 0xffff_ffff)?;
    plain(
        rt,
        b"7 / -2",
        b"\x01\x02\x00\x07\x00\x00\x00\x02\x01\xFE\xFF\xFF\xFF\x06\x00\x00\x01\x08\x00\x01",
        0,
        0,
    )?;
    plain(
        rt,
        b"-2147483648 / -1",
        b"\x01\x02\x00\x00\x00\x00\x80\x02\x01\xFF\xFF\xFF\xFF\x06\x00\x00\x01\x08\x00\x01",
        0,
        0,
    )?;
    plain(
        rt,
        b"2147483647 + 1",
        b"\x01\x02\x00\xFF\xFF\xFF\x7F\x02\x01\x01\x00\x00\x00\x04\x00\x00\x01\x08\x00\x01",
        0,
        0,
    )?;
    plain(
        rt,
        b"index -1 of 4",
        b"\x05\x02\x04\xFF\xFF\xFF\xFF\x02\x05\x09\x00\x00\x00\x0C\x00\x04\x04\x05\x08\x03\x01",
        0,
        0,
    )
}

// 9, 10 and 11 by document 01's examples.
fn refusals(rt: &impl Print) -> io::Result<()> {
    let mut none = [0xffu8; 0];
    let mut given = [7i32; 1];
    run(
        rt,
        b"511 words",
        b"\x00\x01",
        511,
        &mut none,
        state(b"\x00\x01", 0, 0, 0),
        &[],
        &mut given,
        1,
    )?;
    run(
        rt,
        b"write position 1 past the end",
        b"\x00\x01",
        512,
        &mut none,
        state(b"\x00\x01", 1, 0, 0),
        &[],
        &mut given,
        1,
    )?;
    let mut long = [0xffu8; 65537];
    run(
        rt,
        b"65537 bytes of FF, run",
        b"\x00\x01",
        512,
        &mut long,
        state(b"\x00\x01", 0, 0, 0),
        &[],
        &mut given,
        1,
    )
}

// How many cells each save on the chip holds.
fn sizes(rt: &impl Print, chip: &[u8]) -> io::Result<()> {
    rt.write_all(b" cells")?;
    let mut at: usize = 0;
    let mut cells: u64 = 0;
    while at + 18 <= chip.len() {
        if chip[at] == 0xa1 {
            cells += 1;
            at += 6;
        } else if chip[at] == 0xa3 {
            print!(rt; " {cells}")?;
            cells = 0;
            at += 18;
        } else {
            return Ok(());
        }
    }
    Ok(())
}

// One of document 001's programs with its own sets, from an erased chip to its end.
pub fn program(rt: &impl Print, name: &[u8], plan: &[u8], readings: &[i32]) -> io::Result<()> {
    let mut dead = [0u64; 2048];
    let mut sets = [0u64; 512];
    // What it refuses, the run refuses too.
    let _ = analysis::analyse(plan, &mut dead, &mut sets);
    let mut chip = [0xffu8; 8000];
    let mut outputs = [0i32; 25];
    let ran = run_value(
        state(plan, 0, 0, 0),
        plan,
        &sets,
        &mut chip,
        readings,
        &mut outputs,
        1_000_000,
    );
    rt.write_all(name)?;
    rt.write_all(b" run:")?;
    answer(rt, ran)?;
    values(rt, &outputs)?;
    let cells = instruction::byte_at(plan, 0) as u64 + 1;
    print!(rt; " saves of {cells}")?;
    sizes(rt, &chip)?;
    rt.write_all(b"\n")
}

pub fn rows(rt: &impl Print) -> io::Result<()> {
    saves(rt)?;
    exits(rt)?;
    stops(rt)?;
    refusals(rt)
}
