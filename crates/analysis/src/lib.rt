// The analysis: which cells are dead before each instruction, and the sets DE and RO of each EXCLUDE,
// for every byte string and buffers of any length. `analyse` is equated with paths through the program
// by `Analyses` of specs/Analyse.antt; the paths are defined in specs/Paths.antt. Crates above take
// what dead cells and regions are good for from proofs/Safety.antt; that the contract leaves
// one content of each buffer is proofs/Fixed.antt.
#![tactic(auto)]

mod region;

ghost use Rattle.std.specs.Prelude.{◌≡◌, ◌≤◌, length};
ghost use Rattle.instruction.specs.Bytes.{cells_of};
ghost use Rattle.graph.specs.Tables.{Passed};
ghost use Rattle.analysis.specs.Analyse.{analysed_of, DeadSets, ExcludeSets, Analyses};

use graph::tables;
use liveness::settle;
use program::refusal::Refusal;
use program::{Sizes, check};
use region::exclude_sets;

// Fills both buffers for a program that check passes.
fn fill(p: &[u8], cells: u32, dead: &mut [u64], sets: &mut [u64])
    requires { Passed p.now × (cells ≡ cells_of p.now) × (2048 ≤ length dead.old) × (512 ≤ length sets.old) }
    ensures { DeadSets p.now dead.old dead.new × ExcludeSets p.now sets.old sets.new }
{
    let mut at = [0u16; 512];
    let mut left = [0u16; 512];
    let mut right = [0u16; 512];
    let mut reads = [0u64; 2048];
    let mut writes = [0u64; 2048];
    let n = tables(p, &mut at, &mut left, &mut right, &mut reads, &mut writes);
    settle(&left[..n], &right[..n], &reads, &writes, cells as u64, dead);
    exclude_sets(p, cells as u64, n, &at, &left, &right, &writes, dead, sets);
}

// The analysis of a program, into two lent buffers; `answer_of` of specs/Analyse.antt gives document 01's number and
// values.
pub fn analyse(program: &[u8], dead: &mut [u64], sets: &mut [u64]) -> Result<Sizes, Refusal>
    ensures { Analyses program.now dead.old sets.old dead.new sets.new (analysed_of result) }
{
    let sizes = check(program)?;
    if dead.len() < 2048 || sets.len() < 512 {
        return Err(Refusal::ShortWords);
    }
    fill(program, sizes.cells, dead, sets);
    Ok(sizes)
}
