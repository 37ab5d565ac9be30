// The journal (document 01: the chip): the checkpoints (saves) that stand on it, how it is read and
// what is stored on it. `scan` reads any bytes, and its answer is the one reading that they have:
// specs/Reading.antt says what a journal holds, whole, torn or damaged, specs/Answer.antt what is
// answered. The module writing has the bytes of a checkpoint, specs/Writing.antt. Proved over bytes
// alone: decoding is unique, a torn checkpoint is never taken for a whole one, and storing and
// erasing in order leave a journal that reads back as the checkpoints whose final byte was stored
// (proofs/Decoding.antt, Torn.antt, Back.antt, Storing.antt).
#![tactic(auto)]

mod fields;
pub mod owners;
pub mod pages;
mod records;
mod tail;
pub mod writing;

ghost use Rattle.std.specs.Prelude.{◌≡◌, ◌+◌, ◌<◌, ◌≤◌, length};
ghost use Rattle.journal.specs.Format.{format_of, format_for, kind_number};
ghost use Rattle.journal.specs.Scanned.{scanned_of, values_of};
ghost use Rattle.journal.specs.Answer.{facts_in, ScanIs};
ghost use Rattle.journal.specs.Parts.{Content, WalkIs};

use fields::commit_at;
use owners::{Kind, kind_of};
use pages::{fill, is_erased, is_length};
use records::{records_end, restore};
use tail::{Tail, tail_at};

// The first byte of a cell's record.
pub const RECORD: u8 = 0xa1;

// The last byte of a MARK, and so of a checkpoint.
pub const MARK_END: u8 = 0x5a;

// An erased byte.
pub const ERASED: u8 = 0xff;

// What a checkpoint ends with (document 01: its MARK): the offset after the CHECKPOINT, that of the last
// EXCLUDE executed or 0, the readings taken and the outputs given; and the owner, the number by which an `A3`
// names its plan (document 02, Q-8). An `A2` names none: 0. Numbers and no Options: `exclude` stands so
// on the chip and in the host's state, and the owner is compared as a number, 0 being no accepted plan's.
#[derive(Clone, Copy)]
pub struct Commit {
    pub place: u16,
    pub exclude: u16,
    pub readings: u32,
    pub outputs: u32,
    pub owner: u32,
}

// What stands in place of the last commit where there is none.
const FIRST: Commit = Commit {
    place: 1,
    exclude: 0,
    readings: 0,
    outputs: 0,
    owner: 0,
};

// What a sound journal holds: where its whole checkpoints end, how many bytes are to be erased behind them, the
// last commit, or offset 1 and zeros if there is none, whether every whole commit has the owner asked for, and each
// cell's last saved value, or 0.
#[derive(Clone, Copy)]
pub struct Contents {
    pub end: usize,
    pub torn: usize,
    pub last: Commit,
    pub own: bool,
    pub values: [u32; 256],
}

// Why a journal is refused: it has a length that no chip has, or is damaged.
#[derive(Clone, Copy, PartialEq, Eq)]
pub enum Unreadable {
    BadLength,
    Damaged,
}

// How many bytes remain without the FF bytes at the end.
fn content(l: &[u8]) -> usize
    ensures { Content l.now result }
{
    match l.iter().rposition(|byte| *byte != ERASED) {
        Some(last) => last + 1,
        None => 0,
    }
}

// Takes up checkpoint after checkpoint. Each has a stamp of its own, so that the cells of one are told
// from those of the one before without clearing a table.
fn walk(
    l: &[u8],
    n: usize,
    table: &[u8; 2048],
    page: usize,
    kind: Kind,
    owner: u32,
) -> Result<Contents, Unreadable>
    requires { (length l.now ≤ 65536) × (n ≤ 256) × (0 < page) × (page ≤ 16) }
    ensures { WalkIs (facts_in (format_of page (kind_number kind) owner) n table.now) l.now (scanned_of result) (values_of result) }
{
    let mut seen = [0u32; 256];
    let mut values = [0u32; 256];
    let mut at: usize = 0;
    let mut last = FIRST;
    let mut own = true;
    while at < l.len() {
        let i = records_end(l, at, n, &mut seen);
        match tail_at(l, i, n, &seen, at as u32 + 1, table, last, kind) {
            Tail::Whole => {
                last = commit_at(l, i + 1, kind);
                let end = i + kind.mark_size();
                let next = end + fill(end, page);
                if !is_erased(l, end, next) {
                    return Err(Unreadable::Damaged);
                }
                restore(l, at, i, &mut values);
                own = own && last.owner == owner;
                at = next;
            }
            Tail::Cut => {
                let rest = l.len() - at;
                let torn = rest + fill(rest, page);
                return Ok(Contents {
                    end: at,
                    torn,
                    last,
                    own,
                    values,
                });
            }
            Tail::Bad => return Err(Unreadable::Damaged),
        }
    }
    Ok(Contents {
        end: at,
        torn: 0,
        last,
        own,
        values,
    })
}

// Reads a journal of any length, by a program's byte 0, which is the number of its highest cell, its table
// of places, how many bytes a page of the chip has, and the owner that its MARKs are to name, 0 for MARKs that
// name none.
pub fn scan(
    journal: &[u8],
    highest: u8,
    table: &[u8; 2048],
    page: usize,
    owner: u32,
) -> Result<Contents, Unreadable>
    ensures { ScanIs (facts_in (format_for page owner) (highest + 1) table.now) journal.now (scanned_of result) (values_of result) }
{
    if !is_length(journal.len(), page) {
        return Err(Unreadable::BadLength);
    }
    let t = content(journal);
    walk(
        &journal[..t],
        highest as usize + 1,
        table,
        page,
        kind_of(owner),
        owner,
    )
}
