// Why a call is refused: document 01's table "Refused inputs" and the rows that document 02 adds to it, one list
// for all calls; specs/Refusal.antt has their numbers.
ghost use Rattle.std.specs.Prelude.{◌≡◌};
ghost use Rattle.program.specs.Refusal.{refusal_number};

#[derive(Clone, Copy, PartialEq, Eq, Debug)]
pub enum Refusal {
    PlanSize = 1,
    UnknownCommand = 2,
    CutCommand = 3,
    MissingCell = 4,
    BadTable = 5,
    TooManyCommands = 6,
    OpenEnd = 7,
    BadJump = 8,
    ShortWords = 9,
    UnsoundState = 10,
    ChipLength = 11,
    DamagedChip = 12,
    OtherSave = 13,
    SmallChip = 14,
    OlderMarks = 15,
    AnotherPlan = 16,
}

impl From<Refusal> for u32 {
    ghost from_gives = { λ refusal number. number ≡ refusal_number refusal };

    fn from(refusal: Refusal) -> u32 {
        refusal as u32
    }
}
