// Where a program's jumps go, noted while it is walked: whether a target is an instruction's offset is
// known only when all of them are. A jump has three bytes at least, so 683 places are enough.
ghost use Rattle.std.specs.Prelude.{◌≡◌, ◌+◌, ◌≤◌, ◌<◌, length, set};
ghost use Rattle.instruction.specs.Table.{targets};
ghost use Rattle.program.specs.Starts.{note_of, all_first_of};
ghost use Rattle.program.specs.Places.{placed};

use crate::places::place_at;
use instruction::Flow;

// The targets noted, the first `count` of `offsets`.
#[derive(Clone, Copy)]
pub struct Targets {
    pub offsets: [u16; 683],
    pub count: usize,
}

impl Targets {
    // Places for the targets of any program.
    pub fn none() -> Targets
        ensures count { result.count ≡ 0 }
        ensures size { length result.offsets ≡ 683 }
    {
        Targets {
            offsets: [0; 683],
            count: 0,
        }
    }

    fn push(&mut self, target: u16)
        requires { self.old.count < 683 }
        ensures count { self.new.count ≡ self.old.count + 1 }
        ensures offsets { self.new.offsets ≡ set self.old.offsets self.old.count target }
    {
        self.offsets[self.count] = target;
        self.count += 1;
    }

    // Notes where an instruction may jump.
    pub fn note(&mut self, flow: Flow)
        requires { self.old.count < 683 }
        ensures count { self.new.count ≡ self.old.count + length (targets flow) }
        ensures offsets { self.new.offsets ≡ note_of flow self.old.count self.old.offsets }
    {
        match flow {
            Flow::Halt | Flow::Next => {}
            Flow::Goto(target) | Flow::Branch(target) => self.push(target),
        }
    }

    // Whether all of them are instructions' offsets.
    pub fn all_start(&self, table: &[u8; 2048]) -> bool
        requires { self.now.count ≤ 683 }
        ensures { result ≡ all_first_of (placed table.now) self.now.count self.now.offsets }
    {
        for target in &self.offsets[..self.count] {
            if !place_at(table, *target as usize).start {
                return false;
            }
        }
        true
    }
}
