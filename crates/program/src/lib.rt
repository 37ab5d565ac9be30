// Programs (document 01: plans): the check, refusals 1 to 8. `check` is equated with `check_of` of
// specs/Check.antt and with the grounds of specs/Grounds.antt, for every byte string. One walk over
// the instructions counts them, fills the table of places, and notes where the jumps go. Crates above
// take an accepted program's laws from proofs/Accepted.antt, AfterLaws.antt and CellLaws.antt.
#![tactic(auto)]

mod jumps;
pub mod places;
pub mod refusal;
mod rules;

ghost use Rattle.std.specs.Prelude.{◌≡◌, ◌≤◌, ◌<◌, length, Ok};
ghost use Rattle.program.specs.Check.{closes, check_of, checked_of, walked_of, Walks, Fills};
ghost use Rattle.program.specs.Grounds.{Checks, Examines};
ghost use Rattle.program.specs.Places.{Blank};

use instruction::access::flow_of;
use instruction::opcodes::{END, EXCLUDE, JUMP, length_in, length_table};
use instruction::{byte_at, instruction_at};
use jumps::Targets;
use places::{blank, clear, place_from};
use refusal::Refusal;
use rules::refuse_at;

// What an accepted program has of each; `answer_of` of specs/Check.antt gives document 01's number and values.
#[derive(Clone, Copy, PartialEq, Eq)]
pub struct Sizes {
    pub cells: u32,
    pub instructions: u32,
    pub excludes: u32,
}

// What the walk over all instructions finds: their numbers and the last opcode.
#[derive(Clone, Copy)]
struct Survey {
    instructions: u32,
    excludes: u32,
    last: u8,
}

// All instructions, one after the other.
fn walk(p: &[u8], table: &mut [u8; 2048], targets: &mut Targets) -> Result<Survey, Refusal>
    requires { (length p.now ≤ 2048) × Blank table.old × (targets.old.count ≡ 0) × (length targets.old.offsets ≡ 683) }
    ensures { Walks p.now (walked_of targets.new.count result) table.new targets.new.offsets }
{
    let lengths = length_table();
    let mut at: usize = 1;
    let mut instructions: u32 = 0;
    let mut excludes: u32 = 0;
    let mut last: u8 = 0;
    while at < p.len() {
        let opcode = p[at];
        let len = length_in(&lengths, opcode);
        refuse_at(p, at, len)?;
        table[at] = place_from(last, opcode, excludes);
        targets.note(flow_of(instruction_at(p, at)));
        instructions += 1;
        excludes += u32::from(opcode == EXCLUDE);
        last = opcode;
        at += len;
    }
    Ok(Survey {
        instructions,
        excludes,
        last,
    })
}

// END or JUMP, after which no instruction needs to follow.
fn is_closing(opcode: u8) -> bool
    ensures { result ≡ closes opcode }
{
    opcode == END || opcode == JUMP
}

// The answer where the walk found no refusal: 6 to 8 remain.
fn conclude(
    p: &[u8],
    table: &[u8; 2048],
    targets: &Targets,
    found: Survey,
) -> Result<Sizes, Refusal>
    requires { (length p.now ≤ 2048) × (0 < length p.now) × Walks p.now (walked_of targets.now.count (Ok found)) table.now targets.now.offsets }
    ensures { checked_of result ≡ check_of p.now }
{
    if 512 < found.instructions || 64 < found.excludes {
        return Err(Refusal::TooManyCommands);
    }
    if !is_closing(found.last) {
        return Err(Refusal::OpenEnd);
    }
    if !targets.all_start(table) {
        return Err(Refusal::BadJump);
    }
    Ok(Sizes {
        cells: byte_at(p, 0) as u32 + 1,
        instructions: found.instructions,
        excludes: found.excludes,
    })
}

// The check of a program, which fills the table, blank before, as far as the walk goes.
fn check_into(program: &[u8], table: &mut [u8; 2048]) -> Result<Sizes, Refusal>
    requires { Blank table.old }
    ensures { Fills program.now (checked_of result) table.new }
{
    if program.is_empty() || 2048 < program.len() {
        return Err(Refusal::PlanSize);
    }
    let mut targets = Targets::none();
    let found = walk(program, table, &mut targets)?;
    conclude(program, table, &targets, found)
}

// The check of a program: the table, blank before, has its places where it is accepted, and is blank again
// where it is refused.
pub fn examine(program: &[u8], table: &mut [u8; 2048]) -> Result<Sizes, Refusal>
    requires { Blank table.old }
    ensures { Examines program.now (checked_of result) table.old table.new }
{
    let answer = check_into(program, table);
    if answer.is_err() {
        clear(table);
    }
    answer
}

// The check of a program, for every byte string.
pub fn check(program: &[u8]) -> Result<Sizes, Refusal>
    ensures { Checks program.now (checked_of result) }
{
    let mut table = blank();
    check_into(program, &mut table)
}
