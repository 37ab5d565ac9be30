// The bytes of a checkpoint that is to be stored, one at a time: for the set of cells to store, the cells and the
// commit's fields. The records stand by rising cell number.
ghost use Rattle.std.specs.Prelude.{◌≡◌, ℕ, ◌+◌, ◌-◌, ◌<◌, ◌≤◌, List, length, replicate, nat_le, slice_index, slice_index_or};
ghost use Rattle.std.proofs.lemmas.List.Edits.{sets};
ghost use Rattle.cellset.specs.Bits.{has};
ghost use Rattle.journal.specs.Format.{format_of, kind_number, record_image, commit_image, image, padded};
ghost use Rattle.journal.specs.declared.Commit;
ghost use Rattle.journal.specs.Writing.{checkpoint_of};

use crate::owners::Kind;
use crate::pages::fill;
use crate::{Commit, ERASED, MARK_END, RECORD};
use cellset::{CellSet, count, is_in, nth};
use word::{byte, store16, store32};

// How many bytes are stored of the checkpoint, the last page filled.
pub fn size(s: CellSet, page: usize, kind: Kind) -> usize
    requires { (0 < page) × (page ≤ 16) }
    ensures { (owner : ℕ) (values : List ℕ) (c : Commit) → result ≡ length (padded (format_of page (kind_number kind) owner) (checkpoint_of s.words values c)) }
{
    let bytes = 6 * count(s) as usize + kind.mark_size();
    bytes + fill(bytes, page)
}

// Whether it fits between `at` and the end of a journal of `len` bytes.
pub fn fits(s: CellSet, at: usize, len: usize, page: usize, kind: Kind) -> bool
    requires { (0 < page) × (page ≤ 16) }
    ensures { (owner : ℕ) (values : List ℕ) (c : Commit) → result ≡ nat_le (at + length (padded (format_of page (kind_number kind) owner) (checkpoint_of s.words values c))) len }
{
    at <= len && size(s, page, kind) <= len - at
}

// The k-th byte of a record.
fn record_byte(cell: u8, value: u32, k: usize) -> u8
    ensures { result ≡ slice_index (record_image (record { cell = cell; value = value })) k }
{
    if k == 0 {
        return RECORD;
    }
    if k == 1 {
        return cell;
    }
    if k < 6 {
        return byte(value, k - 2);
    }
    0
}

// The k-th byte of a commit.
fn commit_byte(c: Commit, kind: Kind, k: usize) -> u8
    ensures { (page owner : ℕ) → result ≡ slice_index (commit_image (format_of page (kind_number kind) owner) c) k }
{
    if k == 0 {
        return kind.lead();
    }
    if k < 3 {
        return byte(c.place as u32, k - 1);
    }
    if k < 5 {
        return byte(c.exclude as u32, k - 3);
    }
    if k < 9 {
        return byte(c.readings, k - 5);
    }
    if k < 13 {
        return byte(c.outputs, k - 9);
    }
    if k < 13 + kind.owner_width() {
        return byte(c.owner, k - 13);
    }
    if k == 13 + kind.owner_width() {
        return MARK_END;
    }
    0
}

// The k-th byte of the checkpoint; past its end the filling, FF.
pub fn image_byte(s: CellSet, values: &[u32; 256], c: Commit, kind: Kind, k: usize) -> u8
    ensures { (page owner : ℕ) → result ≡ slice_index_or (image (format_of page (kind_number kind) owner) (checkpoint_of s.words values.now c)) k 0xFF }
{
    let records = 6 * count(s) as usize;
    if records + kind.mark_size() <= k {
        return ERASED;
    }
    if records <= k {
        return commit_byte(c, kind, k - records);
    }
    let cell = nth(s, (k / 6) as u32);
    record_byte(cell, values[cell as usize], k % 6)
}

// A record from offset `at` on.
fn record_into(buffer: &mut [u8; 1584], at: usize, cell: u8, value: u32)
    requires { at + 6 ≤ 1584 }
    ensures { buffer.new ≡ sets buffer.old at (record_image (record { cell = cell; value = value })) }
{
    buffer[at] = RECORD;
    buffer[at + 1] = cell;
    store32(buffer, at + 2, value);
}

// A commit from offset `at` on.
fn commit_into(buffer: &mut [u8; 1584], at: usize, c: Commit, kind: Kind)
    requires { at + 18 ≤ 1584 }
    ensures { (page owner : ℕ) → buffer.new ≡ sets buffer.old at (commit_image (format_of page (kind_number kind) owner) c) }
{
    buffer[at] = kind.lead();
    store16(buffer, at + 1, c.place);
    store16(buffer, at + 3, c.exclude);
    store32(buffer, at + 5, c.readings);
    store32(buffer, at + 9, c.outputs);
    match kind {
        Kind::A2 => buffer[at + 13] = MARK_END,
        Kind::A3 => {
            store32(buffer, at + 13, c.owner);
            buffer[at + 17] = MARK_END;
        }
    }
}

// All that is stored of the checkpoint of a set of cells below n, from the buffer's start on; gives the number of bytes.
pub fn image_into(
    buffer: &mut [u8; 1584],
    s: CellSet,
    values: &[u32; 256],
    c: Commit,
    n: usize,
    page: usize,
    kind: Kind,
) -> usize
    requires { (n ≤ 256) × ((j : ℕ) → n ≤ j → j < 256 → has s.words j ≡ 0) × (0 < page) × (page ≤ 16) }
    ensures { (owner : ℕ) → (result ≡ length (padded (format_of page (kind_number kind) owner) (checkpoint_of s.words values.now c))) × (buffer.new ≡ sets buffer.old 0 (padded (format_of page (kind_number kind) owner) (checkpoint_of s.words values.now c))) }
{
    let words = s.words;
    let mut at: usize = 0;
    for cell in 0..n {
        if is_in(&words, cell as u8) {
            record_into(buffer, at, cell as u8, values[cell]);
            at += 6;
        }
    }
    commit_into(buffer, at, c, kind);
    let end = at + kind.mark_size();
    let total = end + fill(end, page);
    buffer[end..total].fill(ERASED);
    total
}
