// Whether the cells and the table that an instruction names exist.
ghost use Rattle.std.specs.Prelude.{◌≡◌, nat_lt};
ghost use Rattle.std.specs.List.{list_all};
ghost use Rattle.instruction.specs.Table.{named, all_below, table_at, fits_in_of, table_fits_of};

use crate::Instruction;

fn all_exist<const N: usize>(cells: [u8; N], n: u32) -> bool
    ensures { result ≡ list_all (λ a. nat_lt a n) cells.entry }
{
    cells.iter().all(|a| (*a as u32) < n)
}

// Each cell that the instruction names is one of the n.
pub fn cells_exist(i: Instruction, n: u32) -> bool
    ensures { result ≡ all_below n (named i) }
{
    match i {
        Instruction::Set { d, .. } => all_exist([d], n),
        Instruction::Copy { d, a } => all_exist([d, a], n),
        Instruction::Add { d, a, b } => all_exist([d, a, b], n),
        Instruction::Sub { d, a, b } => all_exist([d, a, b], n),
        Instruction::Div { d, a, b } => all_exist([d, a, b], n),
        Instruction::Read { d } => all_exist([d], n),
        Instruction::Emit { a } => all_exist([a], n),
        Instruction::Less { a, b, .. } => all_exist([a, b], n),
        Instruction::Get { d, i, .. } => all_exist([d, i], n),
        Instruction::Put { i, a, .. } => all_exist([i, a], n),
        _ => true,
    }
}

fn fits_in(base: u8, len: u8, n: u32) -> bool
    ensures { result ≡ fits_in_of n (table_at base len) }
{
    0 < len && base as u32 + len as u32 <= n
}

// The instruction's table, if it has one, lies within the n cells.
pub fn table_fits(i: Instruction, n: u32) -> bool
    ensures { result ≡ table_fits_of n i }
{
    match i {
        Instruction::Get { base, len, .. } => fits_in(base, len, n),
        Instruction::Put { base, len, .. } => fits_in(base, len, n),
        _ => true,
    }
}
