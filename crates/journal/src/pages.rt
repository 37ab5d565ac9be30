// Whole pages: a chip stores `page` bytes as a unit, and behind a checkpoint the last page is filled with
// FF. On a byte chip a page is one byte, and nothing is filled.
ghost use Rattle.std.specs.Prelude.{◌≡◌, ◌+◌, ◌/◌, ◌<◌, ◌≤◌};
ghost use Rattle.journal.specs.Format.{pages_in, chip_length, fill_of};
ghost use Rattle.journal.specs.Parts.{byte_at, Decides, Erased};

use crate::ERASED;
use crate::fields::byte_at;
use word::load32;

// A chip has at most so many bytes.
const LONGEST: usize = 65536;

// Whether n bytes are whole pages; a byte chip asks for no division.
pub fn is_whole(n: usize, page: usize) -> bool
    requires { 0 < page }
    ensures { result ≡ pages_in page n }
{
    page == 1 || n % page == 0
}

// How many whole pages stand in n bytes.
pub fn count_pages(n: usize, page: usize) -> usize
    requires { 0 < page }
    ensures { result ≡ n / page }
{
    if page == 1 { n } else { n / page }
}

// Whether a chip may have n bytes.
pub fn is_length(n: usize, page: usize) -> bool
    ensures { result ≡ chip_length page n }
{
    0 < page && page <= 16 && n <= LONGEST && is_whole(n, page)
}

// How many bytes fill the last page behind n bytes.
pub fn fill(n: usize, page: usize) -> usize
    requires { 0 < page }
    ensures { (result ≡ fill_of page n) × (result < page) }
{
    if page == 1 {
        return 0;
    }
    let over = n % page;
    if over == 0 {
        return 0;
    }
    page - over
}

// How many bytes from k on are FF, of those looked at in one turn: four where they stand on the journal before
// `to`, else the one at k. A MARK of 18 bytes leaves up to 14 to fill, and one by one they cost a recovery most.
fn erased_at(l: &[u8], k: usize, to: usize) -> usize
    requires { k ≤ 100000 }
    ensures { (result ≤ 4) × Erased l.now k (k + result) × (result ≡ 0 → ¬ (byte_at l.now k ≡ 0xFF)) }
{
    if k + 4 <= to && k + 4 <= l.len() && load32(l, k) == 0xffff_ffff {
        return 4;
    }
    if byte_at(l, k) == ERASED { 1 } else { 0 }
}

// Whether the bytes from `from` to `to` are FF, as far as there are any.
pub fn is_erased(l: &[u8], from: usize, to: usize) -> bool
    requires { to ≤ 100000 }
    ensures { Decides (Erased l.now from to) result }
{
    // Four bytes or one at a turn, and so no `for`.
    let mut k = from;
    while k < to {
        let some = erased_at(l, k, to);
        if some == 0 {
            return false;
        }
        k += some;
    }
    true
}
