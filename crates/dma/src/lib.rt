// What a burst is asked and what it answers. The definitions in specs/ say which single DMA steps it is.
#![tactic(auto)]

ghost use Rattle.std.specs.Prelude.{◌≡◌};
ghost use Rattle.dma.specs.Answers.{number, value, refused};

use machine::Refusal;

// A burst into the FIFO, from lent memory, or out of it, to lent memory.
#[derive(Clone, Copy)]
pub enum Way {
    In,
    Out,
}

// The most bytes of memory that a burst takes.
pub const LIMIT: usize = 4096;

// The number of bytes moved, Floating, or the refusal's number.
#[derive(Clone, Copy)]
pub enum BurstAnswer {
    Moved(u16),
    Floating,
    // By its number, as a step's.
    Refused(u8),
}

impl BurstAnswer {
    // This paper's number of the answer.
    pub fn number_of(self) -> u8
        ensures { result ≡ number self }
    {
        match self {
            BurstAnswer::Moved(_) => 0x00,
            BurstAnswer::Floating => 0x02,
            BurstAnswer::Refused(n) => 0xE0 + n % 16,
        }
    }

    // The number of bytes moved, or 0.
    pub fn value_of(self) -> u16
        ensures { result ≡ value self }
    {
        match self {
            BurstAnswer::Moved(n) => n,
            BurstAnswer::Floating => 0,
            BurstAnswer::Refused(_) => 0,
        }
    }
}

impl From<Refusal> for BurstAnswer {
    ghost from_gives = { λ r a. a ≡ refused r };

    fn from(r: Refusal) -> BurstAnswer {
        BurstAnswer::Refused(r as u8)
    }
}
