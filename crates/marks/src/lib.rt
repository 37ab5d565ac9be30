// The marks of cells, a byte to a cell: the rule at EXCLUDE, what a completed save changes, and the set of cells
// that a save holds. Each function is equated with specs/Marks.antt, document 01's sentences about marks.
#![tactic(auto)]

ghost use Rattle.std.specs.Prelude.{◌≡◌, cond, ℕ, ◌+◌, ◌^◌, ◌<◌, ◌≤◌, length, leb};
ghost use Rattle.cellset.specs.Bits.{bit};
ghost use Rattle.cellset.specs.Sets.{SetIs};
ghost use Rattle.marks.specs.Marks.{byte_of, mark_of, excluded, recovered, saved, is_stored_of, in_set, map_below, excluded_marks, recovered_marks, saved_marks, to_store};
ghost use Rattle.marks.specs.declared.Mark.{Mark};

use cellset::CellSet;

#[derive(Clone, Copy, Debug, PartialEq, Eq)]
pub enum Mark {
    Include,
    Pending,
    Kept,
    Dead,
}

impl From<Mark> for u8 {
    ghost from_gives = { λ m b. b ≡ byte_of m };

    fn from(m: Mark) -> u8 {
        match m {
            Mark::Include => 0,
            Mark::Pending => 1,
            Mark::Kept => 2,
            Mark::Dead => 3,
        }
    }
}

impl From<u8> for Mark {
    ghost from_gives = { λ b m. m ≡ mark_of b };

    fn from(b: u8) -> Mark {
        match b {
            0 => Mark::Include,
            1 => Mark::Pending,
            2 => Mark::Kept,
            _ => Mark::Dead,
        }
    }
}

// The rule at EXCLUDE, for a cell with this mark that is in DE or in RO.
pub fn exclude_mark(m: Mark, de: bool, ro: bool) -> Mark
    ensures { result ≡ excluded m de ro }
{
    if de {
        Mark::Dead
    } else if ro {
        match m {
            Mark::Include | Mark::Pending | Mark::Dead => Mark::Pending,
            Mark::Kept => Mark::Kept,
        }
    } else {
        Mark::Include
    }
}

// The mark that recovery gives a cell that is in DE or in RO.
fn recovered_mark(de: bool, ro: bool) -> Mark
    ensures { result ≡ recovered de ro }
{
    if de {
        Mark::Dead
    } else if ro {
        Mark::Kept
    } else {
        Mark::Include
    }
}

// The mark after a save that holds its cell, if it holds it.
fn save_mark(m: Mark) -> Mark
    ensures { result ≡ saved m }
{
    match m {
        Mark::Pending => Mark::Kept,
        _ => m,
    }
}

fn is_stored(m: Mark) -> bool
    ensures { result ≡ is_stored_of m }
{
    matches!(m, Mark::Include | Mark::Pending)
}

// Whether cell c is in the set that stands in ws from index `at` on: `cellset::is_in` asks a whole set of four words,
// which would be copied out of ws for each cell.
fn in_set(ws: &[u64], at: usize, c: usize) -> bool
    requires { (c < 256) × (at + 4 ≤ length ws.now) }
    ensures { result ≡ in_set ws.now at c }
{
    (ws[at + c / 64] >> (c % 64)) & 1 == 1
}

// The mark of each of the first n cells by f of the cell and its mark.
fn update<F: Fn(usize, Mark) -> Mark>(marks: &mut [u8; 256], n: usize, f: F)
    requires within { n ≤ 256 }
    requires callable { (c : ℕ) (m : Mark) → c < n → F.pre f c m }
    ensures { (g : ℕ → Mark → Mark) → ((c : ℕ) (m r : Mark) → c < n → F.post f c m r → r ≡ g c m) → marks.new ≡ map_below g n marks.old }
{
    for (c, mark) in marks[..n].iter_mut().enumerate() {
        *mark = u8::from(f(c, Mark::from(*mark)));
    }
}

// EXCLUDE: the marks of n cells by the DE and RO that stand in ws from index `at` on.
pub fn exclude(marks: &mut [u8; 256], ws: &[u64], at: usize, n: usize)
    requires { (n ≤ 256) × (at + 8 ≤ length ws.now) }
    ensures { marks.new ≡ excluded_marks ws.now at n marks.old }
{
    update(
        marks,
        n,
        |c, m| exclude_mark(m, in_set(ws, at, c), in_set(ws, at + 4, c)),
    );
}

// Recovery: the marks of n cells by the DE and RO that stand in ws from index `at` on.
pub fn recover(marks: &mut [u8; 256], ws: &[u64], at: usize, n: usize)
    requires { (n ≤ 256) × (at + 8 ≤ length ws.now) }
    ensures { marks.new ≡ recovered_marks ws.now at n marks.old }
{
    update(
        marks,
        n,
        |c, _| recovered_mark(in_set(ws, at, c), in_set(ws, at + 4, c)),
    );
}

// The save is whole: Pending becomes Kept.
pub fn keep(marks: &mut [u8; 256], n: usize)
    requires { n ≤ 256 }
    ensures { marks.new ≡ saved_marks n marks.old }
{
    update(marks, n, |_, m| save_mark(m));
}

// 1 where a save of all 256 cells holds cell c.
fn stored_bit(marks: &[u8; 256], c: usize) -> u64
    requires { c < 256 }
    ensures { (result < 2) × (result ≡ to_store 256 marks.now c) }
{
    u64::from(is_stored(Mark::from(marks[c])))
}

// The bits of four cells from c on, written out for speed.
fn stored_four(marks: &[u8; 256], c: usize) -> u64
    requires { c ≤ 252 }
    ensures { (result < 2 ^ 4) × ((k : ℕ) → k < 4 → bit result k ≡ to_store 256 marks.now (c + k)) }
{
    stored_bit(marks, c)
        + stored_bit(marks, c + 1) * 2
        + stored_bit(marks, c + 2) * 4
        + stored_bit(marks, c + 3) * 8
}

// The bits of eight cells from c on, no one of which waits for another: this is for speed.
fn stored_eight(marks: &[u8; 256], c: usize) -> u64
    requires { c ≤ 248 }
    ensures { (result < 2 ^ 8) × ((k : ℕ) → k < 8 → bit result k ≡ to_store 256 marks.now (c + k)) }
{
    stored_four(marks, c) + stored_four(marks, c + 4) * 16
}

// The word of the set of cells to store of all 256 whose first cell is `first`, made from its highest eight bits down.
fn stored_word(marks: &[u8; 256], first: usize) -> u64
    requires { first ≤ 192 }
    ensures { (k : ℕ) → k < 64 → bit result k ≡ to_store 256 marks.now (first + k) }
{
    let mut w = 0;
    for eight in (0..8).rev() {
        w = stored_eight(marks, first + 8 * eight) + w * 256;
    }
    w
}

// That word, or 0 where none of its cells is one of n: a plan of few cells is spared the others.
fn word_below(marks: &[u8; 256], first: usize, n: usize) -> u64
    requires { first ≤ 192 }
    ensures { (k : ℕ) → k < 64 → bit result k ≡ cond (leb n first) 0 (to_store 256 marks.now (first + k)) }
{
    if n <= first {
        0
    } else {
        stored_word(marks, first)
    }
}

// The cells that a save of n cells holds; n cuts the whole words, so that no mark is tested against it.
pub fn stored_cells(marks: &[u8; 256], n: usize) -> CellSet
    ensures { SetIs result.words (to_store n marks.now) }
{
    let all = CellSet {
        words: [
            word_below(marks, 0, n),
            word_below(marks, 64, n),
            word_below(marks, 128, n),
            word_below(marks, 192, n),
        ],
    };
    cellset::intersection(all, cellset::below(n as u64))
}
