// Numbers in buffers of bytes, and the state's bytes (docs/C-API.md has the layout): each function is
// equated with specs/Numbers.antt and specs/Layout.antt. That the bytes of a state hold that state, and
// that storing what was loaded changes nothing, is proved in proofs/Laws.antt.
#![tactic(auto)]

ghost use Rattle.std.specs.Prelude.{◌≡◌, ◌+◌, ◌*◌, ◌≤◌, length, take};
ghost use Rattle.std.proofs.lemmas.List.Edits.{sets};
ghost use Rattle.layout.specs.Numbers.{numbers_from, bytes_of_all, signed_from, signed_bytes};
ghost use Rattle.layout.specs.Layout.{regs_in, cells_in, marks_in, regs_list, state_bytes};

use step::{Regs, State};
use word::{from_bits, load32, load64, store32, to_bits};

// The first n words of 64 bits. One function for these loads would have a width, a type and a count more and be no
// shorter than the loops; the stores are alike.
pub fn load_words(bytes: &[u8], n: usize) -> [u64; 512]
    requires { (n ≤ 512) × (8 * n ≤ length bytes.now) }
    ensures { (length result ≡ 512) × (take n result ≡ numbers_from 8 n bytes.now 0) }
{
    let mut words = [0u64; 512];
    for (k, word) in words[..n].iter_mut().enumerate() {
        *word = load64(bytes, 8 * k);
    }
    words
}

// n signed numbers from offset `at` on, into the front of the values.
pub fn load_signed(bytes: &[u8], at: usize, values: &mut [i32], n: usize)
    requires { (n ≤ length values.old) × (at + 4 * n ≤ length bytes.now) }
    ensures { take n values.new ≡ signed_from n bytes.now at }
{
    for (k, value) in values[..n].iter_mut().enumerate() {
        *value = from_bits(load32(bytes, at + 4 * k));
    }
}

// The first n of the values, from offset `at` on.
pub fn store_signed(bytes: &mut [u8], at: usize, values: &[i32], n: usize)
    requires { (n ≤ length values.now) × (at + 4 * n ≤ length bytes.old) }
    ensures { bytes.new ≡ sets bytes.old at (signed_bytes (take n values.now)) }
{
    for (k, value) in values[..n].iter().enumerate() {
        store32(bytes, at + 4 * k, to_bits(*value));
    }
}

pub fn load_cells(bytes: &[u8]) -> [u32; 256]
    requires { 1024 ≤ length bytes.now }
    ensures { result ≡ cells_in bytes.now }
{
    let mut cells = [0u32; 256];
    for (k, cell) in cells.iter_mut().enumerate() {
        *cell = load32(bytes, 4 * k);
    }
    cells
}

pub fn load_marks(bytes: &[u8]) -> [u8; 256]
    requires { 1280 ≤ length bytes.now }
    ensures { result ≡ marks_in bytes.now }
{
    let mut marks = [0u8; 256];
    marks.copy_from_slice(&bytes[1024..1280]);
    marks
}

pub fn load_regs(bytes: &[u8], page: u32, owner: u32) -> Regs
    requires { 1312 ≤ length bytes.now }
    ensures { result ≡ regs_in page owner bytes.now }
{
    Regs {
        pc: load32(bytes, 1280),
        exclude: load32(bytes, 1284),
        readings: load32(bytes, 1288),
        outputs: load32(bytes, 1292),
        stop: load32(bytes, 1296),
        write: load32(bytes, 1300),
        erase: load32(bytes, 1304),
        saving: load32(bytes, 1308),
        page: page as usize,
        owner,
    }
}

// The state that the bytes hold.
pub fn load_state(bytes: &[u8], page: u32, owner: u32) -> State
    requires { 1312 ≤ length bytes.now }
    ensures { (result.regs ≡ regs_in page owner bytes.now) × (result.cells ≡ cells_in bytes.now) × (result.marks ≡ marks_in bytes.now) }
{
    State {
        regs: load_regs(bytes, page, owner),
        cells: load_cells(bytes),
        marks: load_marks(bytes),
    }
}

fn store_cells(bytes: &mut [u8], cells: &[u32])
    requires { (1024 ≤ length bytes.old) × (length cells.now ≡ 256) }
    ensures { bytes.new ≡ sets bytes.old 0 (bytes_of_all 4 cells.now) }
{
    for (k, cell) in cells.iter().enumerate() {
        store32(bytes, 4 * k, *cell);
    }
}

fn store_marks(bytes: &mut [u8], marks: &[u8])
    requires { (1280 ≤ length bytes.old) × (length marks.now ≡ 256) }
    ensures { bytes.new ≡ sets bytes.old 1024 (bytes_of_all 1 marks.now) }
{
    bytes[1024..1280].copy_from_slice(marks);
}

fn store_regs(bytes: &mut [u8], r: Regs)
    requires { 1312 ≤ length bytes.old }
    ensures { bytes.new ≡ sets bytes.old 1280 (bytes_of_all 4 (regs_list r)) }
{
    store32(bytes, 1280, r.pc);
    store32(bytes, 1284, r.exclude);
    store32(bytes, 1288, r.readings);
    store32(bytes, 1292, r.outputs);
    store32(bytes, 1296, r.stop);
    store32(bytes, 1300, r.write);
    store32(bytes, 1304, r.erase);
    store32(bytes, 1308, r.saving);
}

// The bytes of registers, cells and marks, over the whole buffer.
pub fn store_parts(bytes: &mut [u8], regs: Regs, cells: &[u32], marks: &[u8])
    requires { (length bytes.old ≡ 1312) × (length cells.now ≡ 256) × (length marks.now ≡ 256) }
    ensures { bytes.new ≡ state_bytes regs cells.now marks.now }
{
    store_cells(bytes, cells);
    store_marks(bytes, marks);
    store_regs(bytes, regs);
}

// The bytes of the state, over the whole buffer.
pub fn store_state(bytes: &mut [u8], state: State)
    requires { length bytes.old ≡ 1312 }
    ensures { bytes.new ≡ state_bytes state.regs state.cells state.marks }
{
    store_parts(bytes, state.regs, &state.cells, &state.marks);
}
