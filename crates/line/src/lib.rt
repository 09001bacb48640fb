// A line: its frame, or the first of its faults, and its answer. The definitions in specs/ say which line is what.
#![tactic(auto)]

ghost use Rattle.std.specs.Prelude.{◌≡◌};
ghost use Rattle.line.specs.Faults.{refusal, column};
ghost use Rattle.line.specs.Answers.{number, value};

use machine::{Answer, Refusal, Step};

// A start with its pins, or a step.
#[derive(Clone, Copy)]
pub enum Frame {
    Begin(u8),
    Does(Step),
}

// What is wrong with a line that is no frame, with the column where that isn't the same for all.
#[derive(Clone, Copy)]
pub enum Fault {
    NotHex(u8),
    TooShort(u8),
    TooLong,
    UnknownKind,
    UnusedByte(u8),
}

impl Fault {
    // The refusal's number, 41 to 45.
    pub fn refusal_of(self) -> u8
        ensures { result ≡ refusal self }
    {
        match self {
            Fault::NotHex(_) => 41,
            Fault::TooShort(_) => 42,
            Fault::TooLong => 43,
            Fault::UnknownKind => 44,
            Fault::UnusedByte(_) => 45,
        }
    }

    // Where to look. The first character is at column 1.
    pub fn column_of(self) -> u8
        ensures { result ≡ column self }
    {
        match self {
            Fault::NotHex(c) => c,
            Fault::TooShort(c) => c,
            Fault::TooLong => 7,
            Fault::UnknownKind => 1,
            Fault::UnusedByte(c) => c,
        }
    }
}

// What is kept of a line that has not ended: the hex digits that it begins with, six at most, as a value and a number, and
// whether a character came behind them. The first fault can be told from it: with six digits that character is one too many,
// with fewer it is no hex digit, and without it the line is too short.
#[derive(Clone, Copy)]
pub struct Partial {
    pub value: u32,
    pub digits: u8,
    pub fault: bool,
}

// This paper's number of a line's answer: that of the answer to its frame, or E4 for a fault.
pub fn number_of(answer: Result<Answer, Fault>) -> u8
    ensures { result ≡ number answer }
{
    match answer {
        Ok(a) => a.number_of(),
        Err(_) => Answer::from(Refusal::Malformed).number_of(),
    }
}

// The byte beside it.
pub fn value_of(answer: Result<Answer, Fault>) -> u8
    ensures { result ≡ value answer }
{
    match answer {
        Ok(a) => a.value_of(),
        Err(f) => f.refusal_of() % 10 * 16 + f.column_of() % 16,
    }
}
