// A worklist of numbers: the first `top` numbers of a list, with a flag for each number that is among
// them, so that none is put there twice; and chains of numbers, one for each target, as links to
// smaller numbers.
ghost use Rattle.std.specs.Prelude.{◌≡◌, true, ℕ, ◌+◌, ◌≤◌, ◌<◌, length, get_or};
ghost use Rattle.liveness.specs.Graph.{Wired};
ghost use Rattle.liveness.specs.Queue.{flag, Room, Queue, Pushed, Grown, On, Falls, Chains};

// Puts number k behind the first `top` of the list, unless its flag is set. Gives the new top.
pub fn push(list: &mut [u16], flags: &mut [bool], top: usize, k: u16) -> usize
    requires { Room list.old flags.old top × (k < length flags.old) }
    ensures { Pushed list.old flags.old top k list.new flags.new result }
{
    let i = k as usize;
    if flags[i] {
        return top;
    }
    flags[i] = true;
    list[top] = k;
    top + 1
}

// Puts k there, then the number that follows it on the left way, and so on until one that is there already.
fn push_path(list: &mut [u16], flags: &mut [bool], first: usize, left: &[u16], k: u16) -> usize
    requires { Queue (length left.now) list.old flags.old first × ((i : ℕ) → i < length left.now → get_or left.now i 0 < length left.now) × (k < length left.now) }
    ensures { Queue (length left.now) list.new flags.new result × Grown flags.old flags.new × (flag flags.new k ≡ true) }
{
    let mut top = first;
    let mut i = k;
    while !flags[i as usize] {
        top = push(list, flags, top, i);
        i = left[i as usize];
    }
    top
}

// Puts the number of each node there, from 0 on along its left way and then along its right way. Within a
// way a number is popped after those that follow it, so that straight code and most chains of jumps are
// settled in one visit each; the order decides the time only. None waits before.
pub fn push_all(list: &mut [u16], flags: &mut [bool], left: &[u16], right: &[u16]) -> usize
    requires { Queue (length left.now) list.old flags.old 0 × Wired left.now right.now }
    ensures { Queue (length left.now) list.new flags.new result
        × ((k : ℕ) → k < length left.now → flag flags.new k ≡ true) }
{
    let mut top = 0;
    for (k, r) in right.iter().enumerate() {
        top = push_path(list, flags, top, left, k as u16);
        top = push_path(list, flags, top, left, *r);
    }
    top
}

// Puts the numbers of the chain that begins with e there.
fn push_chain(list: &mut [u16], flags: &mut [bool], first: usize, links: &[u16], e: u16) -> usize
    requires { Queue (length links.now) list.old flags.old first × Falls links.now × (e ≤ length links.now) }
    ensures { Queue (length links.now) list.new flags.new result × Grown flags.old flags.new
        × ((k : ℕ) → On links.now k e → flag flags.new k ≡ true) }
{
    let mut top = first;
    let mut rest = e;
    while 0 < rest {
        let k = rest - 1;
        top = push(list, flags, top, k);
        rest = links[k as usize];
    }
    top
}

// Puts the number before i and those of the chain of i there.
pub fn revisit(
    list: &mut [u16],
    flags: &mut [bool],
    top: usize,
    heads: &[u16],
    links: &[u16],
    i: u16,
) -> usize
    requires { Queue (length links.now) list.old flags.old top × Falls links.now × (i < length links.now) × (i < length heads.now) × (get_or heads.now i 0 ≤ length links.now) }
    ensures { Queue (length links.now) list.new flags.new result × Grown flags.old flags.new
        × ((k : ℕ) → k + 1 ≡ i → flag flags.new k ≡ true)
        × ((k : ℕ) → On links.now k (get_or heads.now i 0) → flag flags.new k ≡ true) }
{
    let e = heads[i as usize];
    if i == 0 {
        return push_chain(list, flags, top, links, e);
    }
    let next = push(list, flags, top, i - 1);
    push_chain(list, flags, next, links, e)
}

// The chains of the numbers by their targets. All heads are 0 before.
pub fn thread(targets: &[u16], heads: &mut [u16], links: &mut [u16])
    requires { (length targets.now ≤ 512) × (length targets.now ≤ length links.old) × (length targets.now ≤ length heads.old)
        × ((k : ℕ) → k < length targets.now → get_or targets.now k 0 < length targets.now) × ((t : ℕ) → get_or heads.old t 0 ≡ 0) }
    ensures { Chains targets.now heads.new links.new }
{
    for (k, t) in targets.iter().enumerate() {
        let head = &mut heads[*t as usize];
        links[k] = *head;
        *head = k as u16 + 1;
    }
}
