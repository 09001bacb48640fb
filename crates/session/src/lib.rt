// A session: a line answered, and bytes fed in whatever pieces they come.
#![tactic(auto)]

ghost use Rattle.std.specs.Prelude.{◌≡◌, ◌≤◌, ◌++◌, length, drop};
ghost use Rattle.line.specs.Frames.{reading};
ghost use Rattle.session.specs.Bench.{turned};
ghost use Rattle.session.specs.Turns.{unused, LeavesAnswered};
ghost use Rattle.session.specs.Feed.{bench_of, state_of, fed_of, output_of, buffer_left, finished_of, last_output, last_buffer};

mod digits;
mod held;

use digits::DigitTable;
pub use held::Held;
use line::{Fault, Partial};
use machine::{Answer, Control};

const LF: u8 = b'\n';

// The bytes of a printed line.
pub const REPORT: usize = 9;

// The line that is being read, whether there is a chip, and its Control. The buffer is lent beside it.
// Presence stays beside the Control: without a chip fio_session_feed hands the Control back as it came.
#[derive(Clone, Copy)]
pub struct Session {
    pub partial: Partial,
    pub present: bool,
    pub control: Control,
}

// What a feed leaves: how much of the input it used and how much of the output it wrote.
#[derive(Clone, Copy)]
pub struct Fed {
    pub session: Session,
    pub used: usize,
    pub written: usize,
}

#[derive(Clone, Copy)]
pub struct Finished {
    pub session: Session,
    pub written: usize,
}

// One line: the session before and after it, its answer and its report.
#[derive(Clone, Copy)]
pub struct Answered {
    pub before: Session,
    pub after: Session,
    pub answer: Result<Answer, Fault>,
    pub report: [u8; REPORT],
}

// A line's answer, and the chip after it.
#[derive(Clone, Copy)]
pub struct Turn {
    pub held: Held,
    pub answer: Result<Answer, Fault>,
}

// The line that is being read, and the place of its next byte.
#[derive(Clone, Copy)]
struct Ahead {
    partial: Partial,
    at: usize,
}

// A session before its first line: no chip.
pub fn start() -> Session
    ensures { result ≡ unused }
{
    Session {
        partial: frame::blank_line(),
        present: false,
        control: plan::fresh_control(0),
    }
}

// One whole line, without its LF: its answer, its report, and the session before and after it.
pub fn answer_line(session: Session, buffer: &mut [u8; 128], line: &[u8]) -> Answered
    ensures { LeavesAnswered session (turned (bench_of session buffer.old) (reading line.now)) result buffer.new }
{
    let read = frame::read_line(line);
    let t = Held::new(session).turn(buffer, read);
    Answered {
        before: session,
        after: Session {
            present: t.held.present,
            control: t.held.control,
            ..session
        },
        answer: t.answer,
        report: t.held.report(t.answer),
    }
}

// Writes a report at the front of a part of the output that has room for it.
fn put_report(part: &mut [u8], report: [u8; REPORT])
    requires { 9 ≤ length part.old }
    ensures { part.new ≡ report ++ drop 9 part.old }
{
    if let Some(place) = part.first_chunk_mut() {
        *place = report;
    }
}

// Takes input while there is room for an answer. The record is tested once, and the steps keep it valid; the table of the digits'
// values is made once too.
pub fn feed(session: Session, buffer: &mut [u8; 128], input: &[u8], output: &mut [u8]) -> Fed
    ensures result { result ≡ fed_of (state_of session buffer.old) input.now output.old }
    ensures output { output.new ≡ output_of (state_of session buffer.old) input.now output.old }
    ensures buffer { buffer.new ≡ buffer_left (state_of session buffer.old) input.now output.old }
    ensures within { (result.used ≤ length input.now) × (result.written ≤ length output.old) }
{
    let table = DigitTable::new();
    let mut held = Held::new(session);
    let mut partial = session.partial;
    let mut i: usize = 0;
    let mut o: usize = 0;
    // A turn takes one byte or seven, and one without room for its answer none: an iterator would have to be put back, and the place is handed back.
    while i < input.len() {
        let ahead = table.look_ahead(partial, input, i);
        partial = ahead.partial;
        i = ahead.at;
        let b = input[i];
        if b == LF {
            if output.len() - o < REPORT {
                break;
            }
            let t = held.turn(buffer, frame::read_partial(partial));
            held = t.held;
            put_report(&mut output[o..], held.report(t.answer));
            partial = frame::blank_line();
            o += REPORT;
        } else {
            partial = frame::more(partial, b);
        }
        i += 1;
    }
    Fed {
        session: Session {
            partial,
            present: held.present,
            control: held.control,
        },
        used: i,
        written: o,
    }
}

// A last line that has no LF is answered as one with it.
pub fn finish(session: Session, buffer: &mut [u8; 128], output: &mut [u8]) -> Finished
    ensures result { result ≡ finished_of (state_of session buffer.old) output.old }
    ensures output { output.new ≡ last_output (state_of session buffer.old) output.old }
    ensures buffer { buffer.new ≡ last_buffer (state_of session buffer.old) output.old }
    ensures within { result.written ≤ length output.old }
{
    if !frame::is_begun(session.partial) {
        return Finished {
            session,
            written: 0,
        };
    }
    let Fed {
        session,
        written,
        ..
    } = feed(session, buffer, b"\n", output);
    Finished { session, written }
}
