// Rows about recovery, which reads the chip. A row gives the number of the answer and, where the state is restored, its
// write position, bytes to erase, place, last EXCLUDE, readings and outputs, and the values of cells 0 to 2.
use crate::runs::{number, state};
use journal::owners::owner_of;
use recovery::recover_value;
use std::io;
use step::State;

fn restored(rt: &impl Print, s: State) -> io::Result<()> {
    let regs = s.regs;
    let cells = s.cells;
    print!(rt; " 0 {} {} {}", regs.write, regs.erase, regs.pc)?;
    print!(rt; " {} {} {}", regs.exclude, regs.readings, regs.outputs)?;
    print!(rt; " {} {} {}", cells[0], cells[1], cells[2])
}

// The rest of a row, behind its name. Nothing of the lent state may remain; the words of DE and RO decide the marks
// alone, which no row gives.
fn answer(rt: &impl Print, plan: &[u8], chip: &[u8]) -> io::Result<()> {
    let words = [0u64; 512];
    let owner = owner_of(plan);
    let found = recover_value(state(plan, 9, 9, 9), plan, &words, chip, 1, owner);
    rt.write_all(b":")?;
    match found {
        Ok(state) => restored(rt, state)?,
        Err(refusal) => number(rt, u32::from(refusal))?,
    }
    rt.write_all(b"\n")
}

fn row(rt: &impl Print, name: &[u8], plan: &[u8], chip: &[u8]) -> io::Result<()> {
    rt.write_all(name)?;
    answer(rt, plan, chip)
}

// A row of the small plan that is named by a byte's number.
fn numbered(rt: &impl Print, name: &[u8], k: usize, chip: &[u8]) -> io::Result<()> {
    rt.write_all(name)?;
    print!(rt; " {k}")?;
    answer(
        rt,
        b"\x02\x02\x00\x00\x00\x00\x00\x07\x01\x04\x00\x00\x01\x08\x00\x0D\x0E\x09\x07\x00",
        chip,
    )
}

// The small plan's first two saves, stored byte by byte on 56 bytes of chip.
fn stored(rt: &impl Print) -> io::Result<()> {
    let saves =
        b"\xA1\x00\x05\x00\x00\x00\xA3\x11\x00\x0F\x00\x01\x00\x00\x00\x01\x00\x00\x00\x14\x00\x44\x00\x5A\
                  \xA1\x00\x0C\x00\x00\x00\xA3\x11\x00\x0F\x00\x02\x00\x00\x00\x02\x00\x00\x00\x14\x00\x44\x00\x5A";
    let mut chip = [0xffu8; 56];
    for (k, byte) in saves.iter().enumerate() {
        numbered(rt, b"stored", k, &chip)?;
        chip[k] = *byte;
    }
    numbered(rt, b"stored", 48, &chip)
}

// Both saves on 48 bytes of chip, with byte k of the second replaced.
fn altered(rt: &impl Print, name: &[u8], byte: u8) -> io::Result<()> {
    let saves =
        b"\xA1\x00\x05\x00\x00\x00\xA3\x11\x00\x0F\x00\x01\x00\x00\x00\x01\x00\x00\x00\x14\x00\x44\x00\x5A\
                  \xA1\x00\x0C\x00\x00\x00\xA3\x11\x00\x0F\x00\x02\x00\x00\x00\x02\x00\x00\x00\x14\x00\x44\x00\x5A";
    let mut chip = *saves;
    for k in 24..48 {
        chip[k] = byte;
        numbered(rt, name, k, &chip)?;
        chip[k] = saves[k];
    }
    Ok(())
}

// What begins no sound save, in each of its ways: no CHECKPOINT in the plan; a record after those of all cells; the
// low byte of no such place; a count that FF cannot lift.
fn edges(rt: &impl Print) -> io::Result<()> {
    row(rt, b"no CHECKPOINT, A1", b"\x00\x01", b"\xA1")?;
    row(rt, b"no CHECKPOINT, A3", b"\x00\x01", b"\xA3")?;
    row(rt, b"no CHECKPOINT, FF", b"\x00\x01", b"\xFF")?;
    row(
        rt,
        b"all cells, A1",
        b"\x00\x0E\x01",
        b"\xA1\x00\x01\x02\x03\x04\xA1",
    )?;
    row(
        rt,
        b"all cells, A3",
        b"\x00\x0E\x01",
        b"\xA1\x00\x01\x02\x03\x04\xA3",
    )?;
    row(rt, b"low byte of the place", b"\x00\x0E\x01", b"\xA3\x02")?;
    row(rt, b"low byte of no place", b"\x00\x0E\x01", b"\xA3\x01")?;
    row(
        rt,
        b"low byte 0 for no EXCLUDE",
        b"\x00\x0E\x01",
        b"\xA3\x02\x00\x00",
    )?;
    row(
        rt,
        b"low byte of no EXCLUDE",
        b"\x00\x0E\x01",
        b"\xA3\x02\x00\x01",
    )?;
    counts(rt)
}

// A count that FF lifts, and one that it cannot.
fn counts(rt: &impl Print) -> io::Result<()> {
    row(
        rt,
        b"a count that FF lifts",
        b"\x00\x0E\x01",
        b"\xA3\x02\x00\x00\x00\x00\x01\xFF\xFF\x00\x00\x00\x00\x03\x00\x0F\x00\x5A\xA3\x02\x00\x00\x00\x00\x01",
    )?;
    row(
        rt,
        b"a count that FF cannot lift",
        b"\x00\x0E\x01",
        b"\xA3\x02\x00\x00\x00\x00\x01\xFF\xFF\x00\x00\x00\x00\x03\x00\x0F\x00\x5A\xA3\x02\x00\x00\x00\x00\x00",
    )
}

// A chip that knows its plan (document 02): MARKs that name none, both kinds of MARK, torn ones, and those of
// another plan.
fn owners(rt: &impl Print) -> io::Result<()> {
    row(
        rt,
        b"A2",
        b"\x00\x0E\x01",
        b"\xA2\x02\x00\x00\x00\x00\x00\x00\x00\x00\x00\x00\x00\x5A",
    )?;
    row(
        rt,
        b"A2, torn A2",
        b"\x00\x0E\x01",
        b"\xA2\x02\x00\x00\x00\x00\x00\x00\x00\x00\x00\x00\x00\x5A\xA2",
    )?;
    row(
        rt,
        b"A2, torn A3",
        b"\x00\x0E\x01",
        b"\xA2\x02\x00\x00\x00\x00\x00\x00\x00\x00\x00\x00\x00\x5A\xA3",
    )?;
    row(rt, b"torn A2", b"\x00\x0E\x01", b"\xA2\x02")?;
    row(rt, b"torn A3", b"\x00\x0E\x01", b"\xA3\x02")?;
    row(
        rt,
        b"another length",
        b"\x00\x0E\x01",
        b"\xA3\x02\x00\x00\x00\x00\x00\x00\x00\x00\x00\x00\x00\x04\x00\x0F\x00\x5A",
    )?;
    row(
        rt,
        b"another sum",
        b"\x00\x0E\x01",
        b"\xA3\x02\x00\x00\x00\x00\x00\x00\x00\x00\x00\x00\x00\x03\x00\x10\x00\x5A",
    )?;
    row(
        rt,
        b"another plan's, then its own",
        b"\x00\x0E\x01",
        b"\xA3\x02\x00\x00\x00\x00\x00\x00\x00\x00\x00\x00\x00\x04\x00\x0F\x00\x5A\xA3\x02\x00\x00\x00\x00\x00\x00\x00\x00\x00\x00\x00\x03\x00\x0F\x00\x5A",
    )
}

pub fn rows(rt: &impl Print) -> io::Result<()> {
    stored(rt)?;
    altered(rt, b"byte 00 at", 0x00)?;
    altered(rt, b"byte 03 at", 0x03)?;
    altered(rt, b"byte A1 at", 0xa1)?;
    altered(rt, b"byte FF at", 0xff)?;
    edges(rt)?;
    row(rt, b"00, then FF", b"\x00\x0E\x01", b"\x00\xFF\xFF\xFF")?;
    row(rt, b"no bytes", b"\x00\x0E\x01", b"")?;
    row(rt, b"a refused plan", b"\x00", b"")?;
    row(
        rt,
        b"a cell twice",
        b"\x00\x0E\x01",
        b"\xA1\x00\x01\x00\x00\x00\xA1\x00\x02\x00\x00\x00\xA3\x02\x00\x00\x00\x00\x00\x00\x00\x00\x00\x00\x00\x03\x00\x0F\x00\x5A",
    )?;
    owners(rt)?;
    let long = [0xffu8; 65537];
    row(rt, b"65537 bytes of FF", b"\x00\x0E\x01", &long)?;
    row(rt, b"65536 bytes of FF", b"\x00\x0E\x01", &long[..65536])
}
