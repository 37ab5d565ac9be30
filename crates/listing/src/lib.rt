// The text that the program plan-sets writes (document 01, "A small plan"), put into a lent buffer.
#![tactic(auto)]

mod text;

ghost use Rattle.std.specs.Prelude.{◌≡◌, ◌+◌, ◌*◌, ◌≤◌, ◌<◌, length};
ghost use Rattle.cellset.specs.Bits.{has};
ghost use Rattle.instruction.specs.Bytes.{cells_of};
ghost use Rattle.program.specs.Starts.{starts};
ghost use Rattle.program.specs.Places.{Decodes};
ghost use Rattle.analysis.specs.Analyse.{analysed_of, analyse_of};
ghost use Rattle.listing.specs.Text.{Wrote, Room};
ghost use Rattle.listing.specs.Listing.{number_if, numbers, set_of, line_from, line_at, lines_of, head_of, accepted_of, Listed, Lists};

use analysis::analyse;
use cellset::{CellSet, below, contains, difference, load};
use instruction::byte_at;
use instruction::opcodes::{EXCLUDE, length_in, length_table};
use program::Sizes;
use program::refusal::Refusal;
use text::Text;

// A cell's number, if the cell is in the set.
fn put_number(text: &mut Text, set: CellSet, c: u32)
    requires { (c < 256) × Room text.old.end (number_if (has set.words c) c) }
    ensures wrote { Wrote (number_if (has set.words c) c) text.old.end text.old.out.now text.new.out.now text.new.end }
    ensures same_buffer { text.new.out.ghost_name ≡ text.old.out.ghost_name }
{
    if !contains(set, c as u8) {
        return;
    }
    text.put(b' ');
    text.put_decimal(c);
}

// The numbers of the cells in a set.
fn put_numbers(text: &mut Text, set: CellSet, cells: u32)
    requires { (cells ≤ 256) × Room text.old.end (numbers (has set.words) cells) }
    ensures wrote { Wrote (numbers (has set.words) cells) text.old.end text.old.out.now text.new.out.now text.new.end }
    ensures same_buffer { text.new.out.ghost_name ≡ text.old.out.ghost_name }
{
    for c in 0..cells {
        put_number(text, set, c);
    }
}

// A word and the numbers of its set.
fn put_set(text: &mut Text, word: &[u8], set: CellSet, cells: u32)
    requires { (cells ≤ 256) × Room text.old.end (set_of word.now (has set.words) cells) }
    ensures wrote { Wrote (set_of word.now (has set.words) cells) text.old.end text.old.out.now text.new.out.now text.new.end }
    ensures same_buffer { text.new.out.ghost_name ≡ text.old.out.ghost_name }
{
    text.put_word(word);
    put_numbers(text, set, cells);
}

// The line of an EXCLUDE: its offset, the sets, a line feed.
fn put_line(text: &mut Text, offset: u32, cells: u32, de: CellSet, ro: CellSet, rest: CellSet)
    requires { (cells ≤ 256) × Room text.old.end (line_from offset (has de.words) (has ro.words) (has rest.words) cells) }
    ensures wrote { Wrote (line_from offset (has de.words) (has ro.words) (has rest.words) cells) text.old.end text.old.out.now text.new.out.now text.new.end }
    ensures same_buffer { text.new.out.ghost_name ≡ text.old.out.ghost_name }
{
    text.put_decimal(offset);
    put_set(text, b" dead", de, cells);
    put_set(text, b" fixed", ro, cells);
    put_set(text, b" saved", rest, cells);
    text.put(b'\n');
}

// The line of the EXCLUDE with this number, whose sets stand in the words.
fn put_exclude(text: &mut Text, offset: u32, cells: u32, sets: &[u64], number: usize)
    requires { (cells ≤ 256) × (8 * number + 8 ≤ length sets.now) × Room text.old.end (line_at sets.now number offset cells) }
    ensures wrote { Wrote (line_at sets.now number offset cells) text.old.end text.old.out.now text.new.out.now text.new.end }
    ensures same_buffer { text.new.out.ghost_name ≡ text.old.out.ghost_name }
{
    let de = load(sets, 8 * number);
    let ro = load(sets, 8 * number + 4);
    let rest = difference(difference(below(cells as u64), de), ro);
    put_line(text, offset, cells, de, ro, rest);
}

// A line for each EXCLUDE.
fn put_lines(text: &mut Text, program: &[u8], sets: &[u64], cells: u32)
    requires { Decodes program.now × (512 ≤ length sets.now) × (cells ≡ cells_of program.now) × (cells ≤ 256) × Room text.old.end (lines_of program.now sets.now (starts program.now)) }
    ensures wrote { Wrote (lines_of program.now sets.now (starts program.now)) text.old.end text.old.out.now text.new.out.now text.new.end }
    ensures same_buffer { text.new.out.ghost_name ≡ text.old.out.ghost_name }
{
    let lengths = length_table();
    let mut here: usize = 1;
    let mut number: usize = 0;
    while here < program.len() {
        let offset = here;
        let opcode = program[offset];
        here += length_in(&lengths, opcode);
        if opcode == EXCLUDE {
            put_exclude(text, offset as u32, cells, sets, number);
            number += 1;
        }
    }
}

// A line of a word and a number.
fn put_head(text: &mut Text, word: &[u8], n: u32)
    requires { Room text.old.end (head_of word.now n) }
    ensures wrote { Wrote (head_of word.now n) text.old.end text.old.out.now text.new.out.now text.new.end }
    ensures same_buffer { text.new.out.ghost_name ≡ text.old.out.ghost_name }
{
    text.put_word(word);
    text.put_decimal(n);
    text.put(b'\n');
}

// The text for a program that check passes.
fn put_accepted(text: &mut Text, program: &[u8], sets: &[u64])
    requires { Decodes program.now × (512 ≤ length sets.now) × Room text.old.end (accepted_of program.now sets.now) }
    ensures wrote { Wrote (accepted_of program.now sets.now) text.old.end text.old.out.now text.new.out.now text.new.end }
    ensures same_buffer { text.new.out.ghost_name ≡ text.old.out.ghost_name }
{
    let cells = byte_at(program, 0) as u32 + 1;
    put_head(text, b"cells ", cells);
    put_lines(text, program, sets, cells);
}

// The text for an answer of `analyse`.
fn write_listing(answer: Result<Sizes, Refusal>, program: &[u8], sets: &[u64], text: &mut Text)
    requires { (analysed_of answer ≡ analyse_of program.now 2048 512) × (512 ≤ length sets.now) × (text.old.end ≡ 0) }
    ensures listed { Listed (analysed_of answer) program.now sets.now text.old.out.now text.new.out.now text.new.end }
    ensures same_buffer { text.new.out.ghost_name ≡ text.old.out.ghost_name }
{
    match answer {
        Ok(_) => put_accepted(text, program, sets),
        Err(refusal) => put_head(text, b"refused ", u32::from(refusal)),
    }
}

// The text for a program, for every byte string, from the start of a buffer of any length: a buffer
// that is too short gets the text's first bytes. The answer is the text's length.
pub fn list(program: &[u8], out: &mut [u8]) -> usize
    ensures { Lists program.now out.old out.new result }
{
    let mut dead = [0u64; 2048];
    let mut sets = [0u64; 512];
    let answer = analyse(program, &mut dead, &mut sets);
    let mut text = Text { out, end: 0 };
    write_listing(answer, program, &sets, &mut text);
    text.end
}
