// 32-bit values as document 01's command table wants them, and numbers as little-endian bytes.
// A cell is a `u32` that holds the pattern of a signed 32-bit number. Each function is equated with
// a definition of specs/: Word.antt over the integers, Bytes.antt over any width. All proofs about
// signed numbers stand in this crate; above it a cell's value is only moved.
#![tactic(auto)]

ghost use Rattle.std.specs.Prelude.{◌≡◌, ◌+◌, ◌<◌, ◌≤◌, [], ◌∷◌, length};
ghost use Rattle.word.specs.Word.{val, bits_of, add_of, sub_of, div_of, less_of, place_of};
ghost use Rattle.word.specs.Bytes.{byte_of, number_of, load_of, store_of};

// The least pattern of a negative value.
const HALF: u32 = 0x8000_0000;

pub fn add(a: u32, b: u32) -> u32
    ensures { result ≡ add_of a b }
{
    a.wrapping_add(b)
}

pub fn sub(a: u32, b: u32) -> u32
    ensures { result ≡ sub_of a b }
{
    a.wrapping_sub(b)
}

pub fn div(a: u32, b: u32) -> u32
    requires { 0 < b }
    ensures { result ≡ div_of a b }
{
    a.cast_signed()
        .wrapping_div(b.cast_signed())
        .cast_unsigned()
}

pub fn less(a: u32, b: u32) -> bool
    ensures { result ≡ less_of a b }
{
    a.cast_signed() < b.cast_signed()
}

// The place of index i in a table of len cells.
pub fn place(i: u32, len: u32) -> u32
    requires { 0 < len }
    ensures { result ≡ place_of i len }
{
    if i < HALF {
        i % len
    } else {
        len - 1 - (0xffff_ffff - i) % len
    }
}

// The pattern of a signed number.
pub fn to_bits(v: i32) -> u32
    ensures { result ≡ bits_of v }
{
    v.cast_unsigned()
}

// The signed number of a pattern.
pub fn from_bits(n: u32) -> i32
    ensures { result ≡ val n }
{
    n.cast_signed()
}

// The k-th byte, the lowest first. By a shift, since `to_le_bytes()[k]` is compiled to a store and a load.
pub fn byte(v: u32, k: usize) -> u8
    requires { k < 4 }
    ensures { result ≡ byte_of v k }
{
    ((v >> (8 * k as u32)) & 0xff) as u8
}

pub fn from_bytes(b0: u8, b1: u8, b2: u8, b3: u8) -> u32
    ensures { result ≡ number_of (b0 ∷ b1 ∷ b2 ∷ b3 ∷ []) }
{
    u32::from_le_bytes([b0, b1, b2, b3])
}

// Three widths under three names, here and below: each is one call of its type's own method, and one generic in
// the type would need a trait with an impl of the same line for each.
pub fn load16(s: &[u8], at: usize) -> u16
    requires { at + 2 ≤ length s.now }
    ensures { result ≡ load_of 2 s.now at }
{
    u16::from_le_bytes([s[at], s[at + 1]])
}

pub fn load32(s: &[u8], at: usize) -> u32
    requires { at + 4 ≤ length s.now }
    ensures { result ≡ load_of 4 s.now at }
{
    u32::from_le_bytes([s[at], s[at + 1], s[at + 2], s[at + 3]])
}

pub fn load64(s: &[u8], at: usize) -> u64
    requires { at + 8 ≤ length s.now }
    ensures { result ≡ load_of 8 s.now at }
{
    u64::from_le_bytes([
        s[at],
        s[at + 1],
        s[at + 2],
        s[at + 3],
        s[at + 4],
        s[at + 5],
        s[at + 6],
        s[at + 7],
    ])
}

pub fn store16(s: &mut [u8], at: usize, v: u16)
    requires { at + 2 ≤ length s.old }
    ensures { s.new ≡ store_of 2 s.old at v }
{
    s[at..at + 2].copy_from_slice(&v.to_le_bytes());
}

pub fn store32(s: &mut [u8], at: usize, v: u32)
    requires { at + 4 ≤ length s.old }
    ensures { s.new ≡ store_of 4 s.old at v }
{
    s[at..at + 4].copy_from_slice(&v.to_le_bytes());
}

pub fn store64(s: &mut [u8], at: usize, v: u64)
    requires { at + 8 ≤ length s.old }
    ensures { s.new ≡ store_of 8 s.old at v }
{
    s[at..at + 8].copy_from_slice(&v.to_le_bytes());
}
