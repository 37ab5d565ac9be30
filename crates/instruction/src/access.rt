// What an instruction may read, may write and must write, and where it may go: document 01's table
// as `row_of` of specs/Table.antt has it.
ghost use Rattle.std.specs.Prelude.{◌≡◌, [], ◌∷◌};
ghost use Rattle.cellset.specs.Sets.{SetIs};
ghost use Rattle.instruction.specs.Table.{no_table_of, table_at, access, row_of, may_ref_of, may_def_of, must_def_of, sure_table, SpanIs};

use crate::{Flow, Instruction};
use cellset::CellSet;

fn nothing() -> CellSet
    ensures { SetIs result.words (access [] no_table_of) }
{
    cellset::empty()
}

fn one(a: u8) -> CellSet
    ensures { SetIs result.words (access (a ∷ []) no_table_of) }
{
    cellset::single(a)
}

fn two(a: u8, b: u8) -> CellSet
    ensures { SetIs result.words (access (a ∷ b ∷ []) no_table_of) }
{
    cellset::union(cellset::single(a), cellset::single(b))
}

fn cells_of(base: u8, len: u8) -> CellSet
    ensures { SetIs result.words (access [] (table_at base len)) }
{
    cellset::range(base as u64, base as u64 + len as u64)
}

fn one_and_cells_of(a: u8, base: u8, len: u8) -> CellSet
    ensures { SetIs result.words (access (a ∷ []) (table_at base len)) }
{
    cellset::union(cellset::single(a), cells_of(base, len))
}

// The cells that an instruction may read.
pub fn may_ref(i: Instruction) -> CellSet
    ensures { SetIs result.words (may_ref_of i) }
{
    match i {
        Instruction::Copy { a, .. } => one(a),
        Instruction::Add { a, b, .. } => two(a, b),
        Instruction::Sub { a, b, .. } => two(a, b),
        Instruction::Div { a, b, .. } => two(a, b),
        Instruction::Emit { a } => one(a),
        Instruction::Less { a, b, .. } => two(a, b),
        Instruction::Get { base, len, i, .. } => one_and_cells_of(i, base, len),
        Instruction::Put { i, a, .. } => two(i, a),
        _ => nothing(),
    }
}

// The cells from `base` on, `len` of them.
#[derive(Clone, Copy)]
struct Span {
    base: u8,
    len: u8,
}

fn no_cell() -> Span
    ensures { SpanIs result.base result.len (access [] no_table_of) }
{
    Span { base: 0, len: 0 }
}

fn one_cell(d: u8) -> Span
    ensures { SpanIs result.base result.len (access (d ∷ []) no_table_of) }
{
    Span { base: d, len: 1 }
}

// The cell of a table that a PUT writes for sure: a table of one cell has no other. The base stays
// where it writes none for sure, so that only the length has to be chosen.
fn sure_cell(base: u8, len: u8) -> Span
    ensures { SpanIs result.base result.len (access [] (sure_table (table_at base len))) }
{
    if len == 1 {
        Span { base, len }
    } else {
        Span { base, len: 0 }
    }
}

// The cells that it must write, as a span: one of them or none.
fn sure_cells(i: Instruction) -> Span
    ensures { SpanIs result.base result.len (must_def_of i) }
{
    match i {
        Instruction::Set { d, .. } => one_cell(d),
        Instruction::Copy { d, .. } => one_cell(d),
        Instruction::Add { d, .. } => one_cell(d),
        Instruction::Sub { d, .. } => one_cell(d),
        Instruction::Div { d, .. } => one_cell(d),
        Instruction::Read { d } => one_cell(d),
        Instruction::Get { d, .. } => one_cell(d),
        Instruction::Put { base, len, .. } => sure_cell(base, len),
        _ => no_cell(),
    }
}

// The cells that it must write. The set is made in one place, since with one in each arm the compiler
// keeps this a call, and an analysis takes up to a fifth longer.
pub fn must_def(i: Instruction) -> CellSet
    ensures { SetIs result.words (must_def_of i) }
{
    let s = sure_cells(i);
    cells_of(s.base, s.len)
}

// The cells that it may write.
pub fn may_def(i: Instruction) -> CellSet
    ensures { SetIs result.words (may_def_of i) }
{
    match i {
        Instruction::Put { base, len, .. } => cells_of(base, len),
        _ => must_def(i),
    }
}

// Where it may go.
pub fn flow_of(i: Instruction) -> Flow
    ensures { result ≡ (row_of i).flow }
{
    match i {
        Instruction::End => Flow::Halt,
        Instruction::Jump { t } => Flow::Goto(t),
        Instruction::Less { t, .. } => Flow::Branch(t),
        _ => Flow::Next,
    }
}
