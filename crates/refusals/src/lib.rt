// Document 01's refusals and those that document 02 adds, with the numbers that the calls answer.
#![tactic(auto)]

ghost use Rattle.std.specs.Prelude.{◌≡◌};
ghost use Rattle.refusals.specs.Meaning.{number_of_refusal, number_of_answer};

// Why a call is refused, each with its number.
#[derive(Clone, Copy, PartialEq, Eq)]
pub enum Refusal {
    Size = 1,
    Name = 2,
    Unsound = 3,
    Absent = 4,
    Taken = 5,
    Protected = 6,
    Module = 7,
    Room = 8,
    NotPlain = 9,
    Short = 10,
    NoSector = 11,
    BadSheet = 12,
    Total = 13,
    BadList = 14,
}

// The number of a call that is done.
pub const DONE: u32 = 0;

impl From<Refusal> for u32 {
    ghost from_gives = { λ e r. r ≡ number_of_refusal e };

    fn from(refusal: Refusal) -> u32 {
        refusal as u32
    }
}

// The number of an answer that has nothing beside it.
pub fn number(answer: Result<(), Refusal>) -> u32
    ensures { result ≡ number_of_answer answer }
{
    match answer {
        Ok(()) => DONE,
        Err(refusal) => u32::from(refusal),
    }
}
