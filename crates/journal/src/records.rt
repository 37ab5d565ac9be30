// The records of a checkpoint: where they end, whether bytes begin one more, and the values they hold. The cells
// that have a record bear the checkpoint's stamp.
ghost use Rattle.std.specs.Prelude.{◌≡◌, ◌+◌, ◌<◌, ◌≤◌, [], length, drop};
ghost use Rattle.journal.specs.Parts.{Decides, UpTo, Passed, Free, Restored};

use crate::RECORD;
use word::load32;

// Where the records that begin at `at` end: the first that is cut, or of a cell that does not exist or has one.
pub fn records_end(l: &[u8], at: usize, n: usize, seen: &mut [u32; 256]) -> usize
    requires { (at ≤ length l.now) × (length l.now ≤ 65536) × (n ≤ 256) × (length seen.old ≡ 256) × UpTo at seen.old }
    ensures { Passed n l.now at seen.new result }
{
    let stamp = at as u32 + 1;
    // The offset is the answer: chunks of six bytes would have it counted beside them.
    let mut i = at;
    while i + 6 <= l.len() {
        let x = l[i + 1] as usize;
        if l[i] != RECORD || n <= x || seen[x] == stamp {
            break;
        }
        seen[x] = stamp;
        i += 6;
    }
    i
}

// Whether a cell below n is without the stamp.
fn free_cell(seen: &[u32; 256], n: usize, stamp: u32) -> bool
    requires { n ≤ 256 }
    ensures { Decides (Free n stamp seen.now []) result }
{
    seen[..n].iter().any(|mark| *mark != stamp)
}

// Whether the byte at i, if there is one, is a cell below n without the stamp.
pub fn cell_begins(l: &[u8], i: usize, n: usize, seen: &[u32; 256], stamp: u32) -> bool
    requires { n ≤ 256 }
    ensures { Decides (Free n stamp seen.now (drop i l.now)) result }
{
    if l.len() <= i {
        return free_cell(seen, n, stamp);
    }
    let x = l[i] as usize;
    x < n && seen[x] != stamp
}

// Gives the cells the values of the records from `at` to `end`.
pub fn restore(l: &[u8], at: usize, end: usize, values: &mut [u32; 256])
    requires { (end ≤ length l.now) × (length l.now ≤ 65536) × (at ≤ end) × (length values.old ≡ 256) }
    ensures { (length values.new ≡ 256) × Restored l.now at end values.old values.new }
{
    // Tried by `chunks_exact(6)`, and slower: a full chip with saves of 16 cells took a quarter longer.
    let mut i = at;
    while i + 6 <= end {
        let x = l[i + 1] as usize;
        values[x] = load32(l, i + 2);
        i += 6;
    }
}
