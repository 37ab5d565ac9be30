// The owner: the number by which a MARK names the plan that wrote it (document 02, Q-8), and the kind of MARK
// that has one.
ghost use Rattle.std.specs.Prelude.{◌≡◌, ◌+◌, ◌*◌};
ghost use Rattle.journal.specs.Format.{owner_of_plan, kind_number, kind_of};

// What stands in place of a plan's owner where the MARKs are those of document 01, which name no plan: a number,
// since no accepted plan has this owner, and so the owners of both kinds are compared in one way.
pub const UNOWNED: u32 = 0;

// The plan's length and, from the third byte on, the sum of its bytes, each modulo 65,536. A sum of 16 bits wraps
// just there, and the compiler adds many bytes at a time.
pub fn owner_of(p: &[u8]) -> u32
    ensures { result ≡ owner_of_plan p.now }
{
    let mut sum: u16 = 0;
    for byte in p {
        sum = sum.wrapping_add(u16::from(*byte));
    }
    (p.len() % 65536) as u32 + 65536 * u32::from(sum)
}

// The kind of a MARK: `A2` names no plan, `A3` has its plan's owner.
#[derive(Clone, Copy, Debug, PartialEq, Eq)]
pub enum Kind {
    A2,
    A3,
}

impl Kind {
    // A MARK's first byte.
    pub fn lead(self) -> u8
        ensures { result ≡ 0xA2 + kind_number self }
    {
        match self {
            Kind::A2 => 0xa2,
            Kind::A3 => 0xa3,
        }
    }

    // How many bytes the owner takes.
    pub fn owner_width(self) -> usize
        ensures { result ≡ 4 * kind_number self }
    {
        match self {
            Kind::A2 => 0,
            Kind::A3 => 4,
        }
    }

    // How many bytes the whole MARK takes.
    pub fn mark_size(self) -> usize
        ensures { result ≡ 14 + 4 * kind_number self }
    {
        14 + self.owner_width()
    }
}

// The kind of the MARKs that name the owner.
pub fn kind_of(owner: u32) -> Kind
    ensures { kind_number result ≡ kind_of owner }
{
    if owner == UNOWNED { Kind::A2 } else { Kind::A3 }
}
