// The library for hosts: the model's records with each flag in a byte, and the functions that hosts call. `host_c` exports them for C and Rust; host/fio.h says
// of each what it gives back. A record comes by value and is handed back; the buffer, the memory, the input and the output are lent.
#![tactic(auto)]

ghost use Rattle.std.specs.Prelude.{◌≡◌, ◌≤◌, length, MatchResult, Ok, Err};
ghost use Rattle.machine.specs.History.{lines};
ghost use Rattle.line.specs.Frames.{meaning, reading};
ghost use Rattle.line.specs.declared.Frame.TheVariants.{Begin, Does};
ghost use Rattle.session.specs.Turns.{unused};
ghost use Rattle.dma.specs.declared.Way.TheVariants.{In, Out};
ghost use Rattle.host.specs.Records.{MeansIf, is_flag, flag, plain_side, side_meant, side_shown, plain, meant, shown};
ghost use Rattle.host.specs.Records.{plain_session, session_meant, session_shown};
ghost use Rattle.host.specs.Calls.{answer_shown, line_answer_shown, handed_back, LeavesCall, fault_shown, framed, begun, looked, fed_back};
ghost use Rattle.host.specs.Calls.{host_fed, host_finished, host_output, host_buffer, host_last_output, host_last_buffer};
ghost use Rattle.host.specs.Bursts.{burst_shown, LeavesBurstCall, asked, host_burst};

use dma::BurstAnswer;
use line::{Fault, Frame, Partial};
use machine::{Answer, Control, Refusal, Side, Step, Which};
use session::Session;

// ---- the records: laid out as host/fio.h declares them, so that a flag is a byte and an answer its number

// A side. state1, run and waiting are 0 or 1.
#[repr(C)]
#[derive(Clone, Copy)]
pub struct HostSide {
    pub control0: u8,
    pub control1: u8,
    pub ip: u8,
    pub ie: u8,
    pub ius: u8,
    pub vector: u8,
    pub compare: u8,
    pub pattern: u8,
    pub mask: u8,
    pub pointer: u8,
    pub state1: u8,
    pub run: u8,
    pub frozen: u8,
    pub message: u8,
    pub waiting: u8,
}

// A chip but for its 128 bytes, which are lent beside it.
#[repr(C)]
#[derive(Clone, Copy)]
pub struct HostControl {
    pub pins: u8,
    pub one: HostSide,
    pub two: HostSide,
    pub control2: u8,
    pub control3: u8,
    pub start: u8,
    pub count: u8,
}

// An answer's number and the byte beside it.
#[repr(C)]
#[derive(Clone, Copy)]
pub struct HostAnswer {
    pub number: u8,
    pub value: u8,
}

// The refusal, 41 to 45, and the column, 1 to 7, of a line's first fault; of a frame 0 and 0.
#[repr(C)]
#[derive(Clone, Copy)]
pub struct HostFault {
    pub refusal: u8,
    pub column: u8,
}

#[repr(C)]
#[derive(Clone, Copy)]
pub struct HostStepped {
    pub control: HostControl,
    pub answer: HostAnswer,
}

// The record after a burst, its answer's number, and the number of bytes moved, or 0.
#[repr(C)]
#[derive(Clone, Copy)]
pub struct HostBurst {
    pub control: HostControl,
    pub number: u8,
    pub moved: u16,
}

// A session. fault and present are 0 or 1.
#[repr(C)]
#[derive(Clone, Copy)]
pub struct HostSession {
    pub value: u32,
    pub digits: u8,
    pub fault: u8,
    pub present: u8,
    pub control: HostControl,
}

#[repr(C)]
#[derive(Clone, Copy)]
pub struct HostFed {
    pub session: HostSession,
    pub used: usize,
    pub written: usize,
    pub answer: HostAnswer,
}

// ---- what they mean, and how the model's are shown

// The flag in a byte. Bits 7-1 of it are held at zero.
fn flag_of(x: u8) -> Result<bool, Refusal>
    ensures { MeansIf (is_flag x) (flag x) result }
{
    match x {
        0 => Ok(false),
        1 => Ok(true),
        _ => Err(Refusal::NotValid),
    }
}

impl TryFrom<HostSide> for Side {
    type Error = Refusal;

    ghost try_from_gives = { λ s r. MeansIf (plain_side s) (side_meant s) r };

    #[tactic(auto, unfolding(crate::specs::Records::plain_side))]
    fn try_from(s: HostSide) -> Result<Self, Refusal> {
        Ok(Side {
            control0: s.control0,
            control1: s.control1,
            ip: s.ip,
            ie: s.ie,
            ius: s.ius,
            vector: s.vector,
            compare: s.compare,
            pattern: s.pattern,
            mask: s.mask,
            pointer: s.pointer,
            state1: flag_of(s.state1)?,
            run: flag_of(s.run)?,
            frozen: s.frozen,
            message: s.message,
            waiting: flag_of(s.waiting)?,
        })
    }
}

impl From<Side> for HostSide {
    ghost from_gives = { λ s h. h ≡ side_shown s };

    fn from(s: Side) -> Self {
        HostSide {
            control0: s.control0,
            control1: s.control1,
            ip: s.ip,
            ie: s.ie,
            ius: s.ius,
            vector: s.vector,
            compare: s.compare,
            pattern: s.pattern,
            mask: s.mask,
            pointer: s.pointer,
            state1: s.state1.into(),
            run: s.run.into(),
            frozen: s.frozen,
            message: s.message,
            waiting: s.waiting.into(),
        }
    }
}

impl TryFrom<HostControl> for Control {
    type Error = Refusal;

    ghost try_from_gives = { λ h r. MeansIf (plain h) (meant h) r };

    #[tactic(auto, unfolding(crate::specs::Records::plain))]
    fn try_from(h: HostControl) -> Result<Self, Refusal> {
        Ok(Control {
            pins: h.pins,
            one: h.one.try_into()?,
            two: h.two.try_into()?,
            control2: h.control2,
            control3: h.control3,
            start: h.start,
            count: h.count,
        })
    }
}

impl From<Control> for HostControl {
    ghost from_gives = { λ c h. h ≡ shown c };

    fn from(c: Control) -> Self {
        HostControl {
            pins: c.pins,
            one: c.one.into(),
            two: c.two.into(),
            control2: c.control2,
            control3: c.control3,
            start: c.start,
            count: c.count,
        }
    }
}

impl TryFrom<HostSession> for Session {
    type Error = Refusal;

    ghost try_from_gives = { λ s r. MeansIf (plain_session s) (session_meant s) r };

    #[tactic(auto, unfolding(crate::specs::Records::plain_session))]
    fn try_from(s: HostSession) -> Result<Self, Refusal> {
        Ok(Session {
            partial: Partial {
                value: s.value,
                digits: s.digits,
                fault: flag_of(s.fault)?,
            },
            present: flag_of(s.present)?,
            control: s.control.try_into()?,
        })
    }
}

impl From<Session> for HostSession {
    ghost from_gives = { λ s h. h ≡ session_shown s };

    fn from(s: Session) -> Self {
        let Partial {
            value,
            digits,
            fault,
        } = s.partial;
        HostSession {
            value,
            digits,
            fault: fault.into(),
            present: s.present.into(),
            control: s.control.into(),
        }
    }
}

impl From<Result<Answer, Fault>> for HostAnswer {
    ghost from_gives = { λ a h. h ≡ line_answer_shown a };

    fn from(a: Result<Answer, Fault>) -> Self {
        HostAnswer {
            number: line::number_of(a),
            value: line::value_of(a),
        }
    }
}

// An answer that isn't a line's.
impl From<Answer> for HostAnswer {
    ghost from_gives = { λ a h. h ≡ answer_shown a };

    fn from(a: Answer) -> Self {
        Ok(a).into()
    }
}

// ---- a start and a step

fn hand_back(h: HostControl, a: Result<Answer, Fault>) -> HostStepped
    ensures { result ≡ handed_back h a }
{
    HostStepped {
        control: h,
        answer: a.into(),
    }
}

// The frame of three bytes: a line of six digits that has ended.
#[tactic(auto, using(crate::proofs::Laws::three_bytes))]
fn frame_of(kind: u8, address: u8, byte: u8) -> Result<Frame, Fault>
    ensures { result ≡ meaning kind address byte }
{
    frame::read_partial(Partial {
        value: u32::from_be_bytes([0, kind, address, byte]),
        digits: 6,
        fault: false,
    })
}

#[tactic(auto, unfolding(crate::specs::Calls::framed))]
fn begin_chip(h: HostControl, buffer: &mut [u8; 128], pins: u8) -> HostStepped
    ensures { LeavesCall (framed h buffer.old (Ok (Begin pins))) result buffer.new }
{
    match chip::start(pins) {
        Ok(c) => {
            *buffer = [0u8; 128];
            hand_back(c.into(), Ok(Answer::Done))
        }
        Err(refusal) => hand_back(h, Ok(Answer::from(refusal))),
    }
}

#[tactic(auto, unfolding(crate::specs::Calls::framed))]
fn take_step(h: HostControl, buffer: &mut [u8; 128], s: Step) -> HostStepped
    ensures { LeavesCall (framed h buffer.old (Ok (Does s))) result buffer.new }
{
    match Control::try_from(h) {
        Ok(c) => {
            let r = chip::step_lent(c, buffer, s);
            hand_back(r.control.into(), Ok(r.answer))
        }
        Err(refusal) => hand_back(h, Ok(refusal.into())),
    }
}

// A new chip, its record and its 128 bytes.
#[tactic(auto, unfolding(crate::specs::Calls::begun, crate::specs::Calls::framed))]
pub fn fio_start(pins: u8, buffer: &mut [u8; 128]) -> HostStepped
    ensures { LeavesCall (begun pins buffer.old) result buffer.new }
{
    begin_chip(plan::fresh_control(pins).into(), buffer, pins)
}

// A frame's three bytes, the kind by its number, as host/fio.h has it.
#[tactic(auto, unfolding(crate::specs::Calls::framed))]
pub fn fio_step(
    control: HostControl,
    buffer: &mut [u8; 128],
    kind: u8,
    address: u8,
    byte: u8,
) -> HostStepped
    ensures { LeavesCall (framed control buffer.old (meaning kind address byte)) result buffer.new }
{
    match frame_of(kind, address, byte) {
        Err(f) => hand_back(control, Err(f)),
        Ok(f) => match f {
            Frame::Begin(pins) => begin_chip(control, buffer, pins),
            Frame::Does(s) => take_step(control, buffer, s),
        },
    }
}

// ---- a line

// What is wrong with a line, without its LF.
pub fn fio_line_fault(line: &[u8]) -> HostFault
    ensures { result ≡ fault_shown (reading line.now) }
{
    match frame::read_line(line) {
        Ok(_) => HostFault {
            refusal: 0,
            column: 0,
        },
        Err(f) => HostFault {
            refusal: f.refusal_of(),
            column: f.column_of(),
        },
    }
}

// ---- a look: two functions, since one of both would take a closure for a single field

#[tactic(auto, unfolding(crate::specs::Calls::looked))]
pub fn fio_lines(control: HostControl) -> HostAnswer
    ensures { result ≡ looked lines control }
{
    match Control::try_from(control) {
        Ok(c) => Answer::Byte(control::lines_of(c)).into(),
        Err(refusal) => Answer::from(refusal).into(),
    }
}

#[tactic(auto, unfolding(crate::specs::Calls::looked))]
pub fn fio_count(control: HostControl) -> HostAnswer
    ensures { result ≡ looked (λ c. c.count) control }
{
    match Control::try_from(control) {
        Ok(c) => Answer::Byte(c.count).into(),
        Err(refusal) => Answer::from(refusal).into(),
    }
}

// ---- a burst

fn burst_shown(h: HostControl, a: BurstAnswer) -> HostBurst
    ensures { result ≡ burst_shown h a }
{
    HostBurst {
        control: h,
        number: a.number_of(),
        moved: a.value_of(),
    }
}

// The record and the side that a burst is of. Order: no side has the number; a flag is above 1.
#[tactic(auto, unfolding(crate::specs::Bursts::asked))]
fn asked(h: HostControl, side: u8) -> Result<(Control, Which), Refusal>
    ensures { MatchResult result (λ t. (t.0 ≡ meant h) × (asked h side ≡ Ok t.1)) (λ e. asked h side ≡ Err e) }
{
    let side = match side {
        1 => Which::One,
        2 => Which::Two,
        _ => return Err(Refusal::Malformed),
    };
    Ok((h.try_into()?, side))
}

// From memory to the FIFO, by side 1 or 2. host/fio.h has both ways: memory is lent to be read here, and to be written there.
#[tactic(auto, unfolding(crate::specs::Bursts::host_burst))]
pub fn fio_burst_in(
    control: HostControl,
    buffer: &mut [u8; 128],
    side: u8,
    memory: &[u8],
) -> HostBurst
    ensures { LeavesBurstCall (host_burst In control buffer.old side memory.now) result buffer.new }
{
    match asked(control, side) {
        Ok((c, side)) => {
            let r = burst::burst_in_lent(c, buffer, side, memory);
            burst_shown(r.control.into(), r.answer)
        }
        Err(refusal) => burst_shown(control, refusal.into()),
    }
}

// From the FIFO to memory, by side 1 or 2. Behind the bytes moved it keeps its content.
#[tactic(auto, unfolding(crate::specs::Bursts::host_burst))]
pub fn fio_burst_out(
    control: HostControl,
    buffer: &mut [u8; 128],
    side: u8,
    memory: &mut [u8],
) -> HostBurst
    ensures burst { LeavesBurstCall (host_burst Out control buffer.old side memory.old) result buffer.new }
    ensures memory { memory.new ≡ (host_burst Out control buffer.old side memory.old).memory }
{
    match asked(control, side) {
        Ok((c, side)) => {
            let r = burst::burst_out_lent(c, buffer, side, memory);
            burst_shown(r.control.into(), r.answer)
        }
        Err(refusal) => burst_shown(control, refusal.into()),
    }
}

// ---- a session

fn fed_back(s: HostSession, used: usize, written: usize, a: Answer) -> HostFed
    ensures { result ≡ fed_back s used written a }
{
    HostFed {
        session: s,
        used,
        written,
        answer: a.into(),
    }
}

// A session before its first line.
pub fn fio_session_start() -> HostSession
    ensures { result ≡ session_shown unused }
{
    session::start().into()
}

// Takes input while there is room for an answer.
#[tactic(auto, unfolding(crate::specs::Calls::host_fed, crate::specs::Calls::host_output, crate::specs::Calls::host_buffer))]
pub fn fio_session_feed(
    session: HostSession,
    buffer: &mut [u8; 128],
    input: &[u8],
    output: &mut [u8],
) -> HostFed
    ensures result { result ≡ host_fed session buffer.old input.now output.old }
    ensures output { output.new ≡ host_output session buffer.old input.now output.old }
    ensures buffer { buffer.new ≡ host_buffer session buffer.old input.now output.old }
    ensures within { (result.used ≤ length input.now) × (result.written ≤ length output.old) }
{
    match Session::try_from(session) {
        Ok(s) => {
            let r = session::feed(s, buffer, input, output);
            fed_back(r.session.into(), r.used, r.written, Answer::Done)
        }
        Err(refusal) => fed_back(session, 0, 0, refusal.into()),
    }
}

// Answers a last line that has no LF. host/fio.h has it beside the feed: it takes no input.
#[tactic(auto, unfolding(crate::specs::Calls::host_finished, crate::specs::Calls::host_output, crate::specs::Calls::host_buffer))]
pub fn fio_session_finish(
    session: HostSession,
    buffer: &mut [u8; 128],
    output: &mut [u8],
) -> HostFed
    ensures result { result ≡ host_finished session buffer.old output.old }
    ensures output { output.new ≡ host_last_output session buffer.old output.old }
    ensures buffer { buffer.new ≡ host_last_buffer session buffer.old output.old }
    ensures within { result.written ≤ length output.old }
{
    match Session::try_from(session) {
        Ok(s) => {
            let r = session::finish(s, buffer, output);
            fed_back(r.session.into(), 0, r.written, Answer::Done)
        }
        Err(refusal) => fed_back(session, 0, 0, refusal.into()),
    }
}
