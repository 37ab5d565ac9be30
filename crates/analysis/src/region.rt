// The region of each EXCLUDE, searched with a worklist, and its sets DE and RO.
ghost use Rattle.std.specs.Prelude.{◌≡◌, false, cond, ◌⊎◌, ℕ, ◌+◌, ◌*◌, ◌≤◌, ◌<◌, length, get_or};
ghost use Rattle.cellset.specs.Bits.{member};
ghost use Rattle.cellset.specs.Sets.{SetIs};
ghost use Rattle.instruction.specs.Bytes.{byte, cells_of, instruction_at_of};
ghost use Rattle.instruction.specs.Table.{may_def_of, must_def_of};
ghost use Rattle.liveness.specs.Queue.{flag, Room};
ghost use Rattle.graph.specs.Tables.{count_of, start_of};
ghost use Rattle.analysis.specs.Analyse.{ExcludeSets};
ghost use Rattle.analysis.specs.Search.{Mapped, Known, Listed, Found, BothPushed, saves, dead_all, kept_all, SetsAt};

use cellset::CellSet;
use instruction::access::may_def;
use instruction::instruction_at;
use instruction::opcodes::{CHECKPOINT, EXCLUDE, PUT};
use liveness::push;

// Puts the numbers l and r there, one after the other.
fn push_both(list: &mut [u16], seen: &mut [bool], top: usize, l: u16, r: u16) -> usize
    requires { Room list.old seen.old top × (l < length seen.old) × (r < length seen.old) }
    ensures { BothPushed list.old seen.old top l r list.new seen.new result }
{
    let next = push(list, seen, top, l);
    push(list, seen, next, r)
}

// Lists the instructions of the region of the EXCLUDE that is instruction i. No flag is set before.
fn search(
    p: &[u8],
    at: &[u16],
    left: &[u16],
    right: &[u16],
    i: usize,
    list: &mut [u16],
    seen: &mut [bool],
) -> usize
    requires { Mapped p.now at.now left.now right.now × (i < count_of p.now) × (byte p.now (start_of p.now i) ≡ 0x0D)
        × (length list.old ≡ 512) × (length seen.old ≡ 512) × ((k : ℕ) → flag seen.old k ≡ false) }
    ensures { Found p.now (start_of p.now i) list.new result }
{
    let mut count = push(list, seen, 0, left[i]);
    let mut done = 0;
    while done < count {
        let k = list[done] as usize;
        done += 1;
        if p[at[k] as usize] != EXCLUDE {
            count = push_both(list, seen, count, left[k], right[k]);
        }
    }
    count
}

// The cells that are dead at every CHECKPOINT of the list, none if there is none.
fn de_of(p: &[u8], cells: u64, at: &[u16], dead: &[u64], list: &[u16]) -> CellSet
    requires { Listed p.now at.now list.now (length list.now) × (cells ≡ cells_of p.now) × (2048 ≤ length dead.now) }
    ensures { SetIs result.words (λ c. cond (saves p.now at.now list.now (length list.now)) (dead_all p.now at.now list.now dead.now (length list.now) c) 0) }
{
    let all = cellset::below(cells);
    let mut de = None;
    for k in list {
        let k = *k as usize;
        if p[at[k] as usize] == CHECKPOINT {
            let before = de.unwrap_or(all);
            de = Some(cellset::intersection(before, cellset::load(dead, 4 * k)));
        }
    }
    de.unwrap_or(cellset::empty())
}

// The cells that instruction k, at offset o, may write: what it must write, but for PUT.
fn written(p: &[u8], o: usize, k: usize, writes: &[u64]) -> CellSet
    requires { (o < length p.now) × (4 * k + 4 ≤ length writes.now) × ((c : ℕ) → c < 256 → member writes.now (4 * k) c ≡ must_def_of (instruction_at_of p.now o) c) }
    ensures { SetIs result.words (may_def_of (instruction_at_of p.now o)) }
{
    if p[o] == PUT {
        return may_def(instruction_at(p, o));
    }
    cellset::load(writes, 4 * k)
}

// The cells that none of the list may write. Apart from `de_of`, which meets sets at CHECKPOINTs where this takes
// sets away everywhere: one fold with both as parameters is no plainer.
fn ro_of(p: &[u8], cells: u64, at: &[u16], writes: &[u64], list: &[u16]) -> CellSet
    requires { Listed p.now at.now list.now (length list.now) × (cells ≡ cells_of p.now) × (2048 ≤ length writes.now)
        × ((i c : ℕ) → i < count_of p.now → c < 256 → member writes.now (4 * i) c ≡ must_def_of (instruction_at_of p.now (start_of p.now i)) c) }
    ensures { SetIs result.words (kept_all p.now at.now list.now (length list.now)) }
{
    let mut ro = cellset::below(cells);
    for k in list {
        let k = *k as usize;
        ro = cellset::difference(ro, written(p, at[k] as usize, k, writes));
    }
    ro
}

// Puts DE and RO of the EXCLUDE that is instruction i into `sets`, from index `to` on.
fn exclude_set(
    p: &[u8],
    cells: u64,
    at: &[u16],
    left: &[u16],
    right: &[u16],
    writes: &[u64],
    dead: &[u64],
    i: usize,
    sets: &mut [u64],
    to: usize,
)
    requires { Mapped p.now at.now left.now right.now × Known p.now writes.now dead.now × (cells ≡ cells_of p.now)
        × (i < count_of p.now) × (byte p.now (start_of p.now i) ≡ 0x0D) × (to + 8 ≤ length sets.old) }
    ensures { SetsAt p.now (start_of p.now i) sets.new to × ((k : ℕ) → (k < to) ⊎ (to + 8 ≤ k) → get_or sets.new k 0 ≡ get_or sets.old k 0) }
{
    let mut list = [0u16; 512];
    let mut seen = [false; 512];
    let count = search(p, at, left, right, i, &mut list, &mut seen);
    let region = &list[..count];
    let de = de_of(p, cells, at, dead, region);
    let ro = ro_of(p, cells, at, writes, region);
    cellset::store(sets, to, de);
    cellset::store(sets, to + 4, ro);
}

// Puts DE and RO of every EXCLUDE into `sets`, in order.
pub fn exclude_sets(
    p: &[u8],
    cells: u64,
    n: usize,
    at: &[u16],
    left: &[u16],
    right: &[u16],
    writes: &[u64],
    dead: &[u64],
    sets: &mut [u64],
)
    requires { Mapped p.now at.now left.now right.now × Known p.now writes.now dead.now × (cells ≡ cells_of p.now)
        × (n ≡ count_of p.now) × (512 ≤ length sets.old) }
    ensures { ExcludeSets p.now sets.old sets.new }
{
    let mut to = 0;
    for (i, o) in at[..n].iter().enumerate() {
        if p[*o as usize] == EXCLUDE {
            exclude_set(p, cells, at, left, right, writes, dead, i, sets, to);
            to += 8;
        }
    }
}
