// The dead sets of a graph whose nodes read and write cells, by a worklist, in place. `settle` is equated
// with paths by `Settled` of specs/Graph.antt: a bit is set where no path makes the cell live, and clear
// where one does. The worklist is a list of numbers with a flag for each, specs/Queue.antt; analysis
// searches regions with the same `push`.
#![tactic(auto)]

mod worklist;

ghost use Rattle.std.specs.Prelude.{◌≡◌, true, false, ◌+◌, ◌*◌, ◌≤◌, ◌<◌, length};
ghost use Rattle.cellset.specs.Sets.{SetIs};
ghost use Rattle.liveness.specs.Graph.{Wired, Rooms, Ready, total, meet_bit, Turned, Drained, Settled, Full};

use cellset::CellSet;
pub use worklist::push;
use worklist::{push_all, revisit, thread};

// The set of node i, which goes on to l and r, met with its equation.
fn met(dead: &[u64], reads: &[u64], writes: &[u64], i: usize, l: usize, r: usize) -> CellSet
    requires { (4 * i + 4 ≤ length dead.now) × (4 * l + 4 ≤ length dead.now) × (4 * r + 4 ≤ length dead.now) × (4 * i + 4 ≤ length reads.now) × (4 * i + 4 ≤ length writes.now) }
    ensures { SetIs result.words (meet_bit reads.now writes.now i l r dead.now) }
{
    let old = cellset::load(dead, 4 * i);
    let after = cellset::intersection(cellset::load(dead, 4 * l), cellset::load(dead, 4 * r));
    let written = cellset::union(after, cellset::load(writes, 4 * i));
    cellset::intersection(
        old,
        cellset::difference(written, cellset::load(reads, 4 * i)),
    )
}

// Puts the set that is met in the place of node i. Did it change?
fn turn(dead: &mut [u64], reads: &[u64], writes: &[u64], i: usize, l: usize, r: usize) -> bool
    requires { (4 * i + 4 ≤ length dead.old) × (4 * l + 4 ≤ length dead.old) × (4 * r + 4 ≤ length dead.old) × (4 * i + 4 ≤ length reads.now) × (4 * i + 4 ≤ length writes.now) }
    ensures { Turned reads.now writes.now i l r dead.old dead.new
        × (result ≡ false → dead.new ≡ dead.old) × (result ≡ true → total dead.new < total dead.old) }
{
    let old = cellset::load(dead, 4 * i);
    let new = met(dead, reads, writes, i, l, r);
    if cellset::equal(new, old) {
        return false;
    }
    cellset::store(dead, 4 * i, new);
    true
}

// Every cell, before each of n nodes.
fn fill(dead: &mut [u64], n: usize, cells: u64)
    requires { (n ≤ 512) × (4 * n ≤ length dead.old) }
    ensures { Full n cells dead.old dead.new }
{
    let all = cellset::below(cells);
    for i in 0..n {
        cellset::store(dead, 4 * i, all);
    }
}

// Takes node after node from the list, and puts those back whose equation a change may have touched.
fn drain(
    left: &[u16],
    right: &[u16],
    reads: &[u64],
    writes: &[u64],
    heads: &[u16],
    links: &[u16],
    dead: &mut [u64],
    list: &mut [u16],
    flags: &mut [bool],
    first: usize,
)
    requires { Ready left.now right.now heads.now links.now list.old flags.old first × Rooms (length left.now) reads.now writes.now dead.old }
    ensures { Drained left.now right.now reads.now writes.now dead.old dead.new }
{
    let mut top = first;
    while 0 < top {
        top -= 1;
        let i = list[top];
        let k = i as usize;
        flags[k] = false;
        if turn(dead, reads, writes, k, left[k] as usize, right[k] as usize) {
            top = revisit(list, flags, top, heads, links, i);
        }
    }
}

// The cells below `cells` that are dead before each node, in place of the first words of `dead`.
pub fn settle(
    left: &[u16],
    right: &[u16],
    reads: &[u64],
    writes: &[u64],
    cells: u64,
    dead: &mut [u64],
)
    requires { Wired left.now right.now × Rooms (length left.now) reads.now writes.now dead.old }
    ensures { Settled left.now right.now reads.now writes.now cells dead.old dead.new }
{
    let n = left.len();
    let mut heads = [0u16; 512];
    let mut links = [0u16; 512];
    let mut list = [0u16; 512];
    let mut flags = [false; 512];
    thread(right, &mut heads, &mut links);
    let top = push_all(&mut list, &mut flags, left, right);
    fill(dead, n, cells);
    drain(
        left,
        right,
        reads,
        writes,
        &heads,
        &links[..n],
        dead,
        &mut list,
        &mut flags,
        top,
    );
}
