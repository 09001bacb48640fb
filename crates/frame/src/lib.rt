// A line read, whole or character by character, and a frame written: document 01, "Frames and a session".
#![tactic(auto)]

ghost use Rattle.std.specs.Prelude.{◌≡◌, true, false, ◌%◌, ◌++◌, Ok};
ghost use Rattle.line.specs.declared.Frame.TheVariants.{Does};
ghost use Rattle.line.specs.Digits.{digit, digit_values};
ghost use Rattle.line.specs.Faults.{unused, first};
ghost use Rattle.line.specs.Frames.{on_side, meant, meaning, reading, kind_on, in_capitals, with_lf, written};
ghost use Rattle.line.specs.Unfinished.{blank, longer, is_blank, begun, reading_of};

use line::{Fault, Frame, Partial};
use machine::{Step, Which};

const LF: u8 = b'\n';

// ---- hex digits

const DIGITS: [u8; 16] = *b"0123456789ABCDEF";

// The capital digit of the low half.
pub fn hex_digit(n: u8) -> u8
    ensures { result ≡ digit (n % 16) }
{
    DIGITS[(n % 16) as usize]
}

// What each byte is as a hex digit of either case, and 16 for what is none: the definition has a number for each byte, and no Option.
pub fn digit_values() -> [u8; 256]
    ensures { result ≡ digit_values }
{
    let mut values = [16u8; 256];
    for n in 0..16u8 {
        let capital = hex_digit(n);
        // Bit 5 of a letter is its case; 0 to 9 have it set.
        let small = capital | 0x20;
        values[capital as usize] = n;
        values[small as usize] = n;
    }
    values
}

// ---- reading

// The columns at which the digits of address and data begin.
const ADDRESS: u8 = 3;

const DATA: u8 = 5;

// A frame, unless one of these bytes, which have no use in it, isn't 00. For a byte that has a use, 0 is handed in.
#[tactic(auto, using(line::proofs::Faults::address_first), unfolding(line::specs::Faults::unused, line::specs::Faults::first))]
fn framed_if(address: u8, byte: u8, f: Frame) -> Result<Frame, Fault>
    ensures { result ≡ first (unused 3 false address ++ unused 5 false byte) (Ok f) }
{
    if address != 0 {
        return Err(Fault::UnusedByte(ADDRESS));
    }
    if byte != 0 {
        return Err(Fault::UnusedByte(DATA));
    }
    Ok(f)
}

// The frame of a step on a side, by the low digit of its kind. Numbers, as document 01 has them: an enum of them would name each step twice.
#[tactic(auto, unfolding(line::specs::Frames::on_side, line::specs::Frames::meant, line::specs::Faults::unused, line::specs::Faults::first))]
fn decode_step(side: Which, n: u32, address: u8, byte: u8) -> Result<Frame, Fault>
    ensures { result ≡ meant (on_side side n) address byte }
{
    match n {
        1 => framed_if(
            0,
            0,
            Frame::Does(Step::Write {
                side,
                address,
                data: byte,
            }),
        ),
        2 => framed_if(0, byte, Frame::Does(Step::Read { side, address })),
        3 => framed_if(address, 0, Frame::Does(Step::DmaWrite { side, data: byte })),
        4 => framed_if(address, byte, Frame::Does(Step::DmaRead { side })),
        5 => framed_if(address, byte, Frame::Does(Step::Acknowledge { side })),
        6 => framed_if(address, byte, Frame::Does(Step::Reset { side })),
        _ => Err(Fault::UnknownKind),
    }
}

// The frame of a kind, an address and data: three arguments, as `meaning` and fio_step take them.
#[tactic(auto, unfolding(line::specs::Frames::kind_of, line::specs::Frames::meant, line::specs::Frames::meaning))]
fn decode(kind: u32, address: u8, byte: u8) -> Result<Frame, Fault>
    ensures { result ≡ meaning kind address byte }
{
    if kind == 0x00 {
        return framed_if(0, byte, Frame::Begin(address));
    }
    match kind / 16 {
        1 => decode_step(Which::One, kind % 16, address, byte),
        2 => decode_step(Which::Two, kind % 16, address, byte),
        _ => Err(Fault::UnknownKind),
    }
}

// ---- a line that has not ended

// A function, not a Default: docs/CONTRACTS.md has it.
pub fn blank_line() -> Partial
    ensures { result ≡ blank }
{
    Partial {
        value: 0,
        digits: 0,
        fault: false,
    }
}

// One character more. Of a line that began blank the remainder is the value itself; it keeps any other in range.
#[tactic(auto, using(crate::proofs::Hex::grows, crate::proofs::Hex::faults), unfolding(line::specs::Unfinished::longer))]
pub fn more(p: Partial, b: u8) -> Partial
    ensures { result ≡ longer p b }
{
    // Room first: most characters of a long line have none.
    if !p.fault & (p.digits < 6) {
        return match char::from(b).to_digit(16) {
            Some(n) => Partial {
                value: p.value % 0x100000 * 16 + n,
                digits: p.digits + 1,
                fault: false,
            },
            None => Partial { fault: true, ..p },
        };
    }
    Partial { fault: true, ..p }
}

// Some character came.
pub fn is_begun(p: Partial) -> bool
    ensures { result ≡ begun p }
{
    p.fault | (p.digits != 0)
}

// No character came, and there is no value.
pub fn is_blank(p: Partial) -> bool
    ensures { result ≡ is_blank p }
{
    !is_begun(p) & (p.value == 0)
}

// What the line is, if it ends here.
#[tactic(auto, unfolding(line::specs::Unfinished::reading_of))]
pub fn read_partial(p: Partial) -> Result<Frame, Fault>
    ensures { result ≡ reading_of p }
{
    if p.digits < 6 {
        let column = p.digits + 1;
        if p.fault {
            return Err(Fault::NotHex(column));
        }
        return Err(Fault::TooShort(column));
    }
    if !p.fault & (p.digits == 6) {
        let kind = p.value / 0x10000;
        let address = (p.value / 0x100 % 0x100) as u8;
        let byte = (p.value % 0x100) as u8;
        return decode(kind, address, byte);
    }
    Err(Fault::TooLong)
}

// A whole line, without its LF.
pub fn read_line(line: &[u8]) -> Result<Frame, Fault>
    ensures { result ≡ reading line.now }
{
    read_partial(line.iter().fold(blank_line(), |p, b| more(p, *b)))
}

// ---- writing

// The kind of a step, by the low digit that it has on either side.
#[tactic(auto, unfolding(line::specs::Frames::kind_on))]
fn kind_on(side: Which, n: u8) -> u8
    ensures { result ≡ kind_on side (n % 16) }
{
    match side {
        Which::One => 0x10 + n % 16,
        Which::Two => 0x20 + n % 16,
    }
}

// Six capital digits and LF, one by one as `in_capitals` has them.
#[tactic(auto, unfolding(line::specs::Frames::in_capitals, line::specs::Digits::pair))]
fn capital_line(kind: u8, address: u8, byte: u8) -> [u8; 7]
    ensures { result ≡ with_lf (in_capitals kind address byte) }
{
    [
        hex_digit(kind / 16),
        hex_digit(kind),
        hex_digit(address / 16),
        hex_digit(address),
        hex_digit(byte / 16),
        hex_digit(byte),
        LF,
    ]
}

#[tactic(auto, unfolding(line::specs::Frames::written, line::specs::Frames::line_of))]
fn write_step(s: Step) -> [u8; 7]
    ensures { result ≡ written (Does s) }
{
    match s {
        Step::Write {
            side,
            address,
            data,
        } => capital_line(kind_on(side, 1), address, data),
        Step::Read { side, address } => capital_line(kind_on(side, 2), address, 0),
        Step::DmaWrite { side, data } => capital_line(kind_on(side, 3), 0, data),
        Step::DmaRead { side } => capital_line(kind_on(side, 4), 0, 0),
        Step::Acknowledge { side } => capital_line(kind_on(side, 5), 0, 0),
        Step::Reset { side } => capital_line(kind_on(side, 6), 0, 0),
    }
}

// The seven bytes of the capital form.
#[tactic(auto, unfolding(line::specs::Frames::written, line::specs::Frames::line_of))]
pub fn write_frame(f: Frame) -> [u8; 7]
    ensures { result ≡ written f }
{
    match f {
        Frame::Begin(pins) => capital_line(0x00, pins, 0),
        Frame::Does(s) => write_step(s),
    }
}
