// One side: its bus by the table of modes, Interrupt Status, the sources in their order, acknowledge and the vector.
#![tactic(auto)]

ghost use Rattle.std.specs.Prelude.{◌≡◌, ◌%◌, not, ◌&&◌, ◌||◌, ltb};
ghost use Rattle.bits.specs.Bits.{bit, every};
ghost use Rattle.machine.specs.Modes.{modes};
ghost use Rattle.machine.specs.Interrupts.{half, status, command, commanded, commands, acknowledged, highest, pending, served, vector_answer, vector_read};

use machine::{Answer, Bus, Control0, Row, Side};

// ---- modes

// Table 2, the bus of each side: four rows for each of the pins' codes, B running fastest.
const TABLE_2: [(Bus, Bus); 12] = [
    (Bus::Low, Bus::Low),
    (Bus::Low, Bus::NonZBus),
    (Bus::Low, Bus::ThreeWire),
    (Bus::Low, Bus::TwoWire),
    (Bus::High, Bus::High),
    (Bus::High, Bus::NonZBus),
    (Bus::High, Bus::ThreeWire),
    (Bus::High, Bus::TwoWire),
    (Bus::NonZBus, Bus::Low),
    (Bus::NonZBus, Bus::NonZBus),
    (Bus::NonZBus, Bus::ThreeWire),
    (Bus::NonZBus, Bus::TwoWire),
];

// The row of Table 2 for the pins' code m and for b.
pub fn mode(m: u8, b: u8) -> Row
    ensures { result ≡ modes m b }
{
    if m > 2 {
        return Row {
            one: Bus::NoBus,
            two: Bus::NoBus,
        };
    }
    let at = (m as usize) * 4 + (b as usize) % 4;
    let (one, two) = TABLE_2[at];
    Row { one, two }
}

// ---- Interrupt Status

// IUS, IE and IP of a source; none of source 0.
#[tactic(auto, using(crate::proofs::Laws::half_none, crate::proofs::Laws::half_at, bits::proofs::Laws::bit_mod))]
fn half_of(k: u8, s: Side) -> u8
    ensures { result ≡ half (k % 8) s }
{
    if k % 8 == 0 {
        return 0;
    }
    let ius = bits::bit_of(k, s.ius) % 2;
    let ie = bits::bit_of(k, s.ie) % 2;
    let ip = bits::bit_of(k, s.ip) % 2;
    ius * 4 + ie * 2 + ip
}

// Interrupt Status with these sources in its high and its low half.
#[tactic(auto, using(crate::proofs::Laws::half_mod), unfolding(machine::specs::Interrupts::status))]
pub fn status_of(high: u8, low: u8, s: Side) -> u8
    ensures { result ≡ status (high % 8) (low % 8) s }
{
    let h = half_of(high, s) % 8;
    let l = half_of(low, s) % 8;
    h * 32 + l * 2
}

// By the numbers, as in the byte written: an enum would need a match from each number to its name beside this one.
#[tactic(auto, unfolding(machine::specs::Interrupts::command))]
fn command_to(n: u8, k: u8, s: Side) -> Side
    ensures { result ≡ command n (k % 8) s }
{
    match n {
        1 => Side {
            ip: bits::clear_bit(k, s.ip),
            ius: bits::clear_bit(k, s.ius),
            ..s
        },
        2 => Side {
            ius: bits::set_bit(k, s.ius),
            ..s
        },
        3 => Side {
            ius: bits::clear_bit(k, s.ius),
            ..s
        },
        4 => Side {
            ip: bits::set_bit(k, s.ip),
            ..s
        },
        5 => Side {
            ip: bits::clear_bit(k, s.ip),
            ..s
        },
        6 => Side {
            ie: bits::set_bit(k, s.ie),
            ..s
        },
        7 => Side {
            ie: bits::clear_bit(k, s.ie),
            ..s
        },
        _ => s,
    }
}

#[tactic(auto, using(crate::proofs::Laws::commanded_none, crate::proofs::Laws::commanded_at))]
fn command_half(n: u8, k: u8, s: Side) -> Side
    ensures { result ≡ commanded n (k % 8) s }
{
    if k % 8 == 0 {
        return s;
    }
    command_to(n, k, s)
}

// A byte written to Interrupt Status with these sources in its halves.
#[tactic(auto, unfolding(machine::specs::Interrupts::commands, bits::specs::Bits::field))]
pub fn command_both(high: u8, low: u8, byte: u8, s: Side) -> Side
    ensures { result ≡ commands (high % 8) (low % 8) byte s }
{
    let t = command_half(byte / 32 % 8, high, s);
    command_half(byte / 2 % 8, low, t)
}

// ---- the sources in their order

// The highest source that has its flag, or 0: the search goes from the highest to the lowest, yields its source by break, as document 01 has it,
// and stops at a source that is held.
fn search(flags: u8, held: u8) -> u8
    ensures { result ≡ highest (λ k. bit k flags && every (λ j. ltb j k || not (bit j held)) 8) 7 }
{
    // Nearly every step finds no source with IP and IE, and the lines ask this of both sides at every step.
    if flags == 0 {
        return 0;
    }
    'search: {
        for k in (1..8).rev() {
            let m = 1u8 << k;
            if held & m != 0 {
                break 'search 0;
            }
            if flags & m != 0 {
                break 'search k;
            }
        }
        0
    }
}

// The source that an acknowledge takes, or 0, as `acknowledged` has it.
pub fn due_source(s: Side) -> u8
    ensures { result ≡ acknowledged s }
{
    search(s.ip & s.ie, s.ius)
}

// The highest source that has IP and IE, or 0.
fn pending_source(s: Side) -> u8
    ensures { result ≡ highest (pending s) 7 }
{
    search(s.ip & s.ie, 0)
}

// ---- acknowledge and the vector

// The source's IUS is set.
#[tactic(auto, unfolding(machine::specs::Interrupts::served))]
pub fn serve(k: u8, s: Side) -> Side
    ensures { result ≡ served (k % 8) s }
{
    let ius = bits::set_bit(k, s.ius);
    Side { ius, ..s }
}

// What an acknowledge of source k answers.
#[tactic(auto, using(bits::proofs::Laws::masks), unfolding(machine::specs::Interrupts::vector_answer, machine::specs::Interrupts::vector_of))]
pub fn give(s: Side, k: u8) -> Answer
    ensures { result ≡ vector_answer s k }
{
    if s.control0 & Control0::NV != 0 {
        return Answer::Floating;
    }
    if s.control0 & Control0::VIS != 0 {
        return Answer::Byte(bits::with_number(s.vector, k));
    }
    Answer::Byte(s.vector)
}

// What Vector reads.
#[tactic(auto, using(bits::proofs::Laws::masks), unfolding(machine::specs::Interrupts::vector_read, machine::specs::Interrupts::mie))]
pub fn read_vector(s: Side) -> u8
    ensures { result ≡ vector_read s }
{
    if s.control0 & Control0::MIE != 0 {
        let k = pending_source(s);
        return bits::with_number(s.vector, k);
    }
    s.vector
}
