// Sets of cells, four 64-bit words each (document 01: "In a set bit b of word w stands for cell
// 64 × w + b"). Each operation is equated with its members by `SetIs` of specs/Sets.antt, which also
// fixes the words; a set that stands inside a slice is named by the index of its first word.
#![tactic(auto)]

ghost use Rattle.std.specs.Prelude.{◌≡◌, true, ℕ, ◌+◌, ◌-◌, ◌≤◌, ◌<◌, min, max, eqb, length, get_or, take, drop, slice_index};
ghost use Rattle.std.proofs.lemmas.List.Edits.{sets};
ghost use Rattle.cellset.specs.Bits.{bit, has, is, within};
ghost use Rattle.cellset.specs.Members.{members, bits_from};
ghost use Rattle.cellset.specs.Sets.{SetIs};

#[derive(Clone, Copy, PartialEq, Eq)]
pub struct CellSet {
    pub words: [u64; 4],
}

// The cells below n in the word whose first cell is `first`.
fn low_part(n: u64, first: u64) -> u64
    ensures { (k : ℕ) → k < 64 → bit result k ≡ within 0 n (first + k) }
{
    if n <= first {
        0
    } else if n - first >= 64 {
        u64::MAX
    } else {
        (1 << (n - first)) - 1
    }
}

// The cells from lo to hi - 1 in the word whose first cell is `first`.
fn part(lo: u64, hi: u64, first: u64) -> u64
    ensures { (k : ℕ) → k < 64 → bit result k ≡ within lo hi (first + k) }
{
    low_part(hi, first) & !low_part(lo, first)
}

pub fn empty() -> CellSet
    ensures { SetIs result.words (λ c. 0) }
{
    CellSet {
        words: [0, 0, 0, 0],
    }
}

// The cells from lo to hi - 1.
pub fn range(lo: u64, hi: u64) -> CellSet
    ensures { SetIs result.words (within lo hi) }
{
    CellSet {
        words: [
            part(lo, hi, 0),
            part(lo, hi, 64),
            part(lo, hi, 128),
            part(lo, hi, 192),
        ],
    }
}

// The cells below n.
pub fn below(n: u64) -> CellSet
    ensures { SetIs result.words (within 0 n) }
{
    range(0, n)
}

// One cell.
pub fn single(a: u8) -> CellSet
    ensures { SetIs result.words (is a) }
{
    range(a as u64, a as u64 + 1)
}

// An operation at each of the four words.
fn zip_words<F: Fn(u64, u64) -> u64>(a: CellSet, b: CellSet, f: F) -> CellSet
    requires { F.IsAlwaysCallable f }
    ensures { (length result.words ≡ 4) × ((i : ℕ) → i < 4 → F.post f (slice_index a.words i) (slice_index b.words i) (slice_index result.words i)) }
{
    CellSet {
        words: [
            f(a.words[0], b.words[0]),
            f(a.words[1], b.words[1]),
            f(a.words[2], b.words[2]),
            f(a.words[3], b.words[3]),
        ],
    }
}

pub fn union(a: CellSet, b: CellSet) -> CellSet
    ensures { SetIs result.words (λ c. max (has a.words c) (has b.words c)) }
{
    zip_words(a, b, |x, y| x | y)
}

pub fn intersection(a: CellSet, b: CellSet) -> CellSet
    ensures { SetIs result.words (λ c. min (has a.words c) (has b.words c)) }
{
    zip_words(a, b, |x, y| x & y)
}

// The cells of a that are not in b.
pub fn difference(a: CellSet, b: CellSet) -> CellSet
    ensures { SetIs result.words (λ c. has a.words c - has b.words c) }
{
    zip_words(a, b, |x, y| x & !y)
}

pub fn contains(a: CellSet, c: u8) -> bool
    ensures { result ≡ eqb (has a.words c) 1 }
{
    is_in(&a.words, c)
}

// The same of the words of a set that are lent, so that they are not copied for each cell asked.
pub fn is_in(words: &[u64; 4], c: u8) -> bool
    ensures { result ≡ eqb (has words.now c) 1 }
{
    let i = (c / 64) as usize;
    let k = (c % 64) as u64;
    (words[i] >> k) & 1 == 1
}

pub fn equal(a: CellSet, b: CellSet) -> bool
    ensures { (result ≡ true → a.words ≡ b.words) × (a.words ≡ b.words → result ≡ true) }
{
    a == b
}

// The set that stands in ws from index `at` on.
pub fn load(ws: &[u64], at: usize) -> CellSet
    requires { at + 4 ≤ length ws.now }
    ensures { result.words ≡ take 4 (drop at ws.now) }
{
    CellSet {
        words: [ws[at], ws[at + 1], ws[at + 2], ws[at + 3]],
    }
}

// Puts a set into ws from index `at` on; the other words remain. By four writes, since the compiled code of
// `copy_from_slice` was four instructions longer.
pub fn store(ws: &mut [u64], at: usize, s: CellSet)
    requires { at + 4 ≤ length ws.old }
    ensures { ws.new ≡ sets ws.old at s.words }
{
    ws[at] = s.words[0];
    ws[at + 1] = s.words[1];
    ws[at + 2] = s.words[2];
    ws[at + 3] = s.words[3];
}

// How many cells a set has.
pub fn count(a: CellSet) -> u32
    ensures { result ≡ length (members a.words) }
{
    a.words.iter().map(|w| w.count_ones()).sum()
}

// The set bit of w that has k set bits below it; 64 where there is none. Here and at `nth` no Option, since each
// caller asks for one that is there and would take it apart at once.
fn nth_bit(w: u64, k: u32) -> u32
    ensures { result ≡ get_or (bits_from w 0 64) k 64 }
{
    let mut rest = w;
    for _ in 0..k {
        if rest == 0 {
            return 64;
        }
        rest &= rest - 1;
    }
    rest.trailing_zeros()
}

// The cell of a set that has k of its cells below it; 0 where there is none.
pub fn nth(a: CellSet, k: u32) -> u8
    ensures { result ≡ get_or (members a.words) k 0 }
{
    let mut left = k;
    for (i, w) in a.words.iter().enumerate() {
        let n = w.count_ones();
        if left < n {
            return (64 * i as u32 + nth_bit(*w, left)) as u8;
        }
        left -= n;
    }
    0
}
