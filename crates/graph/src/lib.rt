// A program as a graph: its instructions, numbered from 0 in offset order, with their offsets, the one
// or two instructions that each goes on to, and the cells that it may read and must write. `tables`
// fills all of it for a program that check passes, as `Tables` of specs/Tables.antt says; what the
// numbers are good for, crates above take from proofs/Numbers.antt.
#![tactic(auto)]

ghost use Rattle.std.specs.Prelude.{◌≡◌, ℕ, ◌+◌, ◌*◌, ◌≤◌, ◌<◌, length, get_or, set};
ghost use Rattle.instruction.specs.Table.{row_of, may_ref_of, must_def_of};
ghost use Rattle.graph.specs.Tables.{count_of, Passed, Offsets, Numbered, left_of, right_of_flow, Space, Tables, Stored};

use instruction::access::{flow_of, may_ref, must_def};
use instruction::opcodes::{length_in, length_table};
use instruction::{Flow, Instruction, instruction_at};

// The offset of each instruction, in order. Gives their number.
fn offsets(p: &[u8], at: &mut [u16]) -> usize
    requires { Passed p.now × (512 ≤ length at.old) }
    ensures { (result ≡ count_of p.now) × Offsets p.now at.new }
{
    let lengths = length_table();
    let mut o: usize = 1;
    let mut i: usize = 0;
    while o < p.len() {
        at[i] = o as u16;
        i += 1;
        o += length_in(&lengths, p[o]);
    }
    i
}

// Puts the number of each offset at its place in a table.
fn number(at: &[u16], numbers: &mut [u16])
    requires { (length at.now ≤ 512) × ((i j : ℕ) → i < j → j < length at.now → get_or at.now i 0 < get_or at.now j 0) × ((i : ℕ) → i < length at.now → get_or at.now i 0 < length numbers.old) }
    ensures { Numbered at.now (length at.now) numbers.new }
{
    for (i, o) in at.iter().enumerate() {
        numbers[*o as usize] = i as u16;
    }
}

// The number that stands at t, 0 past the table's end.
fn number_at(numbers: &[u16], t: u16) -> u16
    ensures { result ≡ get_or numbers.now t 0 }
{
    numbers.get(t as usize).copied().unwrap_or(0)
}

// The left and the right way on from instruction i.
fn ways_of(flow: Flow, i: u16, numbers: &[u16]) -> (u16, u16)
    requires { i < 512 }
    ensures { (result.0 ≡ left_of flow i numbers.now) × (result.1 ≡ right_of_flow flow i numbers.now) }
{
    match flow {
        Flow::Halt => (i, i),
        Flow::Next => (i + 1, i + 1),
        Flow::Goto(t) => {
            let to = number_at(numbers, t);
            (to, to)
        }
        Flow::Branch(t) => (i + 1, number_at(numbers, t)),
    }
}

// Puts the ways on from instruction i into their tables.
fn link(ins: Instruction, i: u16, numbers: &[u16], left: &mut [u16], right: &mut [u16])
    requires { (i < 512) × (512 ≤ length left.old) × (512 ≤ length right.old) }
    ensures { (left.new ≡ set left.old i (left_of (row_of ins).flow i numbers.now)) × (right.new ≡ set right.old i (right_of_flow (row_of ins).flow i numbers.now)) }
{
    let (to_left, to_right) = ways_of(flow_of(ins), i, numbers);
    left[i as usize] = to_left;
    right[i as usize] = to_right;
}

// The cells of instruction i.
fn mask(ins: Instruction, i: usize, reads: &mut [u64], writes: &mut [u64])
    requires { (i < 512) × (2048 ≤ length reads.old) × (2048 ≤ length writes.old) }
    ensures { Stored (may_ref_of ins) i reads.old reads.new × Stored (must_def_of ins) i writes.old writes.new }
{
    cellset::store(reads, 4 * i, may_ref(ins));
    cellset::store(writes, 4 * i, must_def(ins));
}

// The ways and the cells of all instructions.
fn enter(
    p: &[u8],
    at: &[u16],
    numbers: &[u16],
    left: &mut [u16],
    right: &mut [u16],
    reads: &mut [u64],
    writes: &mut [u64],
)
    requires { Passed p.now × (length at.now ≡ count_of p.now) × Offsets p.now at.now × Numbered at.now (length at.now) numbers.now
        × (512 ≤ length left.old) × (512 ≤ length right.old) × (2048 ≤ length reads.old) × (2048 ≤ length writes.old) }
    ensures { Tables p.now at.now left.new right.new reads.new writes.new }
{
    for (i, o) in at.iter().enumerate() {
        let ins = instruction_at(p, *o as usize);
        link(ins, i as u16, numbers, left, right);
        mask(ins, i, reads, writes);
    }
}

// Fills the tables of a program. Gives the number of its instructions.
pub fn tables(
    p: &[u8],
    at: &mut [u16],
    left: &mut [u16],
    right: &mut [u16],
    reads: &mut [u64],
    writes: &mut [u64],
) -> usize
    requires { Passed p.now × Space at.old left.old right.old reads.old writes.old }
    ensures { (result ≡ count_of p.now) × Tables p.now at.new left.new right.new reads.new writes.new }
{
    let n = offsets(p, at);
    let listed = &at[..n];
    let mut numbers = [0u16; 2048];
    number(listed, &mut numbers);
    enter(p, listed, &numbers, left, right, reads, writes);
    n
}
