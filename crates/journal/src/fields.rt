// The fields of a commit, whole or cut: whether the bytes that are there begin those of a sound one. Past the
// end a byte counts as FF, which makes a cut count the largest that it begins.
ghost use Rattle.std.specs.Prelude.{◌≡◌, ℕ, ◌+◌, ◌*◌, ◌<◌, ◌≤◌, true, length, drop};
ghost use Rattle.word.specs.Bytes.{load_of};
ghost use Rattle.journal.specs.Format.{Format, owner_width, kind_number};
ghost use Rattle.journal.specs.Answer.{facts_in};
ghost use Rattle.journal.specs.Parts.{Decides, byte_at, offset_in, Some, Number, Fields, commit_at_of};

use crate::owners::Kind;
use crate::{Commit, ERASED, MARK_END};
use program::places::place_at;
use word::{from_bytes, load16, load32};

pub fn byte_at(l: &[u8], i: usize) -> u8
    ensures { result ≡ byte_at l.now i }
{
    if i < l.len() { l[i] } else { ERASED }
}

// Whether a commit may name the offset t, as its last EXCLUDE or as its place.
fn offset_is(table: &[u8; 2048], excludes: bool, t: usize) -> bool
    ensures { (G : Format) (n : ℕ) → result ≡ offset_in (facts_in G n table.now) excludes t }
{
    let place = place_at(table, t);
    if excludes {
        t == 0 || place.exclude.is_some()
    } else {
        place.after
    }
}

// Whether there is such an offset among low, low + step, low + 2 × step and so on.
pub fn some_offset(table: &[u8; 2048], excludes: bool, low: usize, step: usize) -> bool
    requires { (low < step) × (step ≤ 256) }
    ensures { (G : Format) (n : ℕ) → Decides (Some (facts_in G n table.now) excludes low step) result }
{
    // No `step_by`: that of std takes the offsets between one by one, 2,048 turns and not 8 for a step of 256.
    let mut t = low;
    while t < 2048 {
        if offset_is(table, excludes, t) {
            return true;
        }
        t += step;
    }
    false
}

// Whether the bytes at i begin such an offset.
fn offset_begins(l: &[u8], i: usize, table: &[u8; 2048], excludes: bool) -> bool
    requires { i ≤ 100000 }
    ensures { (G : Format) (n : ℕ) → Decides (Number (λ t. offset_in (facts_in G n table.now) excludes t ≡ true) 2 (drop i l.now)) result }
{
    if l.len() <= i {
        return some_offset(table, excludes, 0, 1);
    }
    if l.len() < i + 2 {
        return some_offset(table, excludes, l[i] as usize, 256);
    }
    offset_is(table, excludes, load16(l, i) as usize)
}

// Whether the bytes at i begin a count that is not below `least`.
fn count_begins(l: &[u8], i: usize, least: u32) -> bool
    requires { i ≤ 100000 }
    ensures { Decides (Number (λ x. least ≤ x) 4 (drop i l.now)) result }
{
    if i + 4 <= l.len() {
        return least <= load32(l, i);
    }
    let b0 = byte_at(l, i);
    let b1 = byte_at(l, i + 1);
    let b2 = byte_at(l, i + 2);
    let b3 = byte_at(l, i + 3);
    least <= from_bytes(b0, b1, b2, b3)
}

// The same as `fields_begin` where all the bytes are there: kept apart for speed, so that no field asks whether it
// is cut.
fn fields_whole(l: &[u8], i: usize, table: &[u8; 2048], last: Commit, width: usize) -> bool
    requires { (i ≤ 90000) × (width ≤ 4) × (i + (13 + width) ≤ length l.now) }
    ensures { (G : Format) (n : ℕ) → owner_width G ≡ width → Decides (Fields (facts_in G n table.now) last (drop i l.now)) result }
{
    offset_is(table, false, load16(l, i) as usize)
        && offset_is(table, true, load16(l, i + 2) as usize)
        && last.readings <= load32(l, i + 4)
        && last.outputs <= load32(l, i + 8)
        && l[i + (12 + width)] == MARK_END
}

// Whether the bytes at i begin the fields and the last byte of a commit that is sound after `last`.
pub fn fields_begin(l: &[u8], i: usize, table: &[u8; 2048], last: Commit, width: usize) -> bool
    requires { (i ≤ 90000) × (width ≤ 4) }
    ensures { (G : Format) (n : ℕ) → owner_width G ≡ width → Decides (Fields (facts_in G n table.now) last (drop i l.now)) result }
{
    if i + (13 + width) <= l.len() {
        return fields_whole(l, i, table, last, width);
    }
    offset_begins(l, i, table, false)
        && offset_begins(l, i + 2, table, true)
        && count_begins(l, i + 4, last.readings)
        && count_begins(l, i + 8, last.outputs)
}

// The owner that stands at i, which only an `A3` has.
fn owner_at(l: &[u8], i: usize, kind: Kind) -> u32
    requires { i + 4 * kind_number kind ≤ length l.now }
    ensures { result ≡ load_of (4 * kind_number kind) l.now i }
{
    match kind {
        Kind::A2 => 0,
        Kind::A3 => load32(l, i),
    }
}

// The commit whose fields stand at i.
pub fn commit_at(l: &[u8], i: usize, kind: Kind) -> Commit
    requires { (i + 12 + 4 * kind_number kind ≤ length l.now) × (length l.now ≤ 65536) }
    ensures { result ≡ commit_at_of (4 * kind_number kind) l.now i }
{
    Commit {
        place: load16(l, i),
        exclude: load16(l, i + 2),
        readings: load32(l, i + 4),
        outputs: load32(l, i + 8),
        owner: owner_at(l, i + 12, kind),
    }
}
