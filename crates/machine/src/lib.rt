// The record, the step and the answer of document 01, with its named constants.
// The definitions in specs/ say what a step does; the crates above this one do it.
#![tactic(auto)]

ghost use Rattle.std.specs.Prelude.{◌≡◌};
ghost use Rattle.machine.specs.Addresses.{low, high, pointed};
ghost use Rattle.machine.specs.Answers.{number, value, refused};
ghost use Rattle.machine.specs.Step.{quiet};

// ---- sides and modes

#[derive(Clone, Copy)]
pub enum Which {
    One,
    Two,
}

// What a side's pins are. NoBus: the pins M1 M0 are no code of Table 2.
#[derive(Clone, Copy)]
pub enum Bus {
    Low,
    High,
    NonZBus,
    ThreeWire,
    TwoWire,
    NoBus,
}

// A row of Table 2: the bus of each side.
#[derive(Clone, Copy)]
pub struct Row {
    pub one: Bus,
    pub two: Bus,
}

// ---- the record

// What a side owns. ip, ie and ius have a bit for each source, by its number.
#[derive(Clone, Copy, Default, PartialEq, Eq)]
pub struct Side {
    pub control0: u8,
    pub control1: u8,
    pub ip: u8,
    pub ie: u8,
    pub ius: u8,
    pub vector: u8,
    pub compare: u8,
    pub pattern: u8,
    pub mask: u8,
    pub pointer: u8,
    pub state1: bool,
    pub run: bool,
    pub frozen: u8,
    pub message: u8,
    pub waiting: bool,
}

// The chip but for its payload.
#[derive(Clone, Copy, Default, PartialEq, Eq)]
pub struct Control {
    pub pins: u8,
    pub one: Side,
    pub two: Side,
    pub control2: u8,
    pub control3: u8,
    pub start: u8,
    pub count: u8,
}

#[derive(Clone, Copy, PartialEq, Eq)]
pub struct Payload {
    pub buffer: [u8; 128],
}

#[derive(Clone, Copy, PartialEq, Eq)]
pub struct Chip {
    pub control: Control,
    pub payload: Payload,
}

// The most bytes that the FIFO holds.
pub const PLACES: u8 = 128;

// ---- registers and their bits

#[derive(Clone, Copy)]
pub struct Register {
    pub number: u8,
}

impl Register {
    pub const CONTROL_0: u8 = 0;

    pub const CONTROL_1: u8 = 1;

    pub const STATUS_0: u8 = 2;

    pub const STATUS_1: u8 = 3;

    pub const STATUS_2: u8 = 4;

    pub const STATUS_3: u8 = 5;

    pub const VECTOR: u8 = 6;

    pub const BYTE_COUNT: u8 = 7;

    pub const COUNT_COMPARE: u8 = 8;

    pub const CONTROL_2: u8 = 9;

    pub const CONTROL_3: u8 = 10;

    pub const MESSAGE_OUT: u8 = 11;

    pub const MESSAGE_IN: u8 = 12;

    pub const MATCH: u8 = 13;

    pub const MASK: u8 = 14;

    pub const DATA_BUFFER: u8 = 15;

    // What an address names on a Z-BUS Low side.
    pub fn of_low(rja: bool, address: u8) -> Register
        ensures { result ≡ low rja address }
    {
        if rja {
            return Register {
                number: address % 16,
            };
        }
        Register {
            number: address / 2 % 16,
        }
    }

    // What an address up to 15 names on a Z-BUS High side.
    pub fn of_high(address: u8) -> Register
        ensures { result ≡ high address }
    {
        Register {
            number: address % 16,
        }
    }

    // What the pointer of a Non-Z-BUS side names.
    pub fn of_pointer(pointer: u8) -> Register
        ensures { result ≡ pointed pointer }
    {
        Register { number: pointer }
    }
}

// The bits of Control 0.
#[derive(Clone, Copy)]
pub struct Control0 {}

impl Control0 {
    pub const MIE: u8 = 0x80;

    pub const DLC: u8 = 0x40;

    pub const NV: u8 = 0x20;

    pub const VIS: u8 = 0x10;

    pub const B: u8 = 0x0C;

    pub const RJA: u8 = 0x02;

    pub const RESET: u8 = 0x01;
}

// The bits of Control 1.
#[derive(Clone, Copy)]
pub struct Control1 {}

impl Control1 {
    pub const LINE_ENABLE: u8 = 0x01;

    pub const REQUEST: u8 = 0x02;

    pub const START_ON_COUNT: u8 = 0x04;

    pub const STOP_ON_MATCH: u8 = 0x08;

    pub const MESSAGE_WAITING: u8 = 0x20;

    pub const FREEZE: u8 = 0x40;

    pub const ZERO: u8 = 0xB0;
}

// The bits of Control 2.
#[derive(Clone, Copy)]
pub struct Control2 {}

impl Control2 {
    pub const HANDSHAKE: u8 = 0x02;

    pub const ENABLE_PORT_2: u8 = 0x01;

    pub const ZERO: u8 = 0xFC;
}

// The bits of Control 3.
#[derive(Clone, Copy)]
pub struct Control3 {}

impl Control3 {
    pub const CLEAR_OWNER: u8 = 0x80;

    pub const CLEAR: u8 = 0x40;

    pub const DIRECTION_OWNER: u8 = 0x20;

    pub const DIRECTION: u8 = 0x10;

    pub const ZERO: u8 = 0x0F;
}

// The sources, highest first: the mask of each in a byte of flags.
#[derive(Clone, Copy)]
pub struct Source {}

impl Source {
    pub const MESSAGE: u8 = 0x80;

    pub const DIRECTION: u8 = 0x40;

    pub const PATTERN: u8 = 0x20;

    pub const STATUS: u8 = 0x10;

    pub const ERROR: u8 = 0x08;

    pub const FULL: u8 = 0x04;

    pub const EMPTY: u8 = 0x02;

    pub const NONE: u8 = 0x01;
}

// ---- steps and answers

#[derive(Clone, Copy)]
pub enum Step {
    Write { side: Which, address: u8, data: u8 },
    Read { side: Which, address: u8 },
    DmaWrite { side: Which, data: u8 },
    DmaRead { side: Which },
    Acknowledge { side: Which },
    Reset { side: Which },
}

#[derive(Clone, Copy)]
pub enum Answer {
    Done,
    Byte(u8),
    Floating,
    Waiting,
    // By any number, which `number` answers for: an enum would ask more of a caller.
    Refused(u8),
}

impl Answer {
    // This paper's number of the answer.
    pub fn number_of(self) -> u8
        ensures { result ≡ number self }
    {
        match self {
            Answer::Done => 0x00,
            Answer::Byte(_) => 0x01,
            Answer::Floating => 0x02,
            Answer::Waiting => 0x03,
            Answer::Refused(n) => 0xE0 + n % 16,
        }
    }

    // The byte that it carries, or 00.
    pub fn value_of(self) -> u8
        ensures { result ≡ value self }
    {
        match self {
            Answer::Done => 0,
            Answer::Byte(b) => b,
            Answer::Floating => 0,
            Answer::Waiting => 0,
            Answer::Refused(_) => 0,
        }
    }
}

// The refusals by name, each with its number. Malformed: a line is no frame, of which crate `line` tells more, or no side has the number.
#[derive(Clone, Copy, Debug, PartialEq, Eq)]
pub enum Refusal {
    NotValid = 1,
    NoRegister = 2,
    NoMode = 3,
    Malformed = 4,
    NotBegun = 5,
    MemoryTooLong = 6,
    NotInRole = 7,
}

impl From<Refusal> for Answer {
    ghost from_gives = { λ r a. a ≡ refused r };

    fn from(r: Refusal) -> Answer {
        Answer::Refused(r as u8)
    }
}

// ---- the stages of a step

// What a step asks for, once its address is read: the FIFO, a register, the pointer, an acknowledge that finds INT active
// (Grant), a reset (Renew), or nothing. A byte offered to the FIFO is no part of it.
#[derive(Clone, Copy)]
pub enum Action {
    Offer {
        dma: bool,
        side: Which,
    },
    Take {
        dma: bool,
        side: Which,
    },
    Store {
        side: Which,
        register: Register,
        data: u8,
    },
    Load {
        side: Which,
        register: Register,
    },
    Aim {
        side: Which,
        pointer: u8,
    },
    Grant {
        side: Which,
    },
    Renew {
        side: Which,
    },
    Float,
    // By its number, as Refused has it.
    Refuse(u8),
}

// What a step does to the buffer.
#[derive(Clone, Copy)]
pub enum Effect {
    Keep,
    Wipe,
    Place(u8),
}

// The answer, or the byte in front.
#[derive(Clone, Copy)]
pub enum Reply {
    Says(Answer),
    Front,
}

#[derive(Clone, Copy)]
pub struct Plan {
    pub next: Control,
    pub effect: Effect,
    pub reply: Reply,
}

impl Plan {
    // The buffer is kept, and an answer is given.
    pub fn keep(control: Control, answer: Answer) -> Plan
        ensures { result ≡ quiet control answer }
    {
        Plan {
            next: control,
            effect: Effect::Keep,
            reply: Reply::Says(answer),
        }
    }
}

// What a step or a burst of a chip hands back.
#[derive(Clone, Copy)]
pub struct Stepped<A> {
    pub chip: Chip,
    pub answer: A,
}
