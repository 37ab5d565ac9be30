// What follows the records of a checkpoint.
ghost use Rattle.std.specs.Prelude.{ℕ, ◌+◌, ◌≤◌, List, length};
ghost use Rattle.journal.specs.Format.{format_of, kind_number, Saved};
ghost use Rattle.journal.specs.Reading.{Once};
ghost use Rattle.journal.specs.Answer.{facts_in};
ghost use Rattle.journal.specs.Parts.{Stamped, NoRecord, TailIs};

use crate::fields::{fields_begin, some_offset};
use crate::owners::Kind;
use crate::records::cell_begins;
use crate::{Commit, RECORD};

// A whole commit, so that the checkpoint is whole; what a checkpoint that is cut leaves; neither.
#[derive(Clone, Copy)]
pub enum Tail {
    Whole,
    Cut,
    Bad,
}

// What stands at i, where no record follows: the cells that have one bear the stamp.
pub fn tail_at(
    l: &[u8],
    i: usize,
    n: usize,
    seen: &[u32; 256],
    stamp: u32,
    table: &[u8; 2048],
    last: Commit,
    kind: Kind,
) -> Tail
    requires { (i ≤ length l.now) × (length l.now ≤ 65536) × (n ≤ 256) × NoRecord n stamp seen.now l.now i }
    ensures { (page owner : ℕ) (rs : List Saved) → Once n rs → Stamped rs stamp seen.now → TailIs (facts_in (format_of page (kind_number kind) owner) n table.now) last rs l.now i result }
{
    if l.len() <= i {
        return if some_offset(table, false, 0, 1) {
            Tail::Cut
        } else {
            Tail::Bad
        };
    }
    if l[i] == kind.lead() {
        if !fields_begin(l, i + 1, table, last, kind.owner_width()) {
            return Tail::Bad;
        }
        if l.len() < i + kind.mark_size() {
            return Tail::Cut;
        }
        return Tail::Whole;
    }
    if l[i] == RECORD && some_offset(table, false, 0, 1) && cell_begins(l, i + 1, n, seen, stamp) {
        Tail::Cut
    } else {
        Tail::Bad
    }
}
