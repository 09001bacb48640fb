// The chip of a session: what a line does to it, and its report.
ghost use Rattle.std.specs.Prelude.{◌≡◌};
ghost use Rattle.machine.specs.Validity.{valid};

use crate::{LF, REPORT, Session, Turn};
use line::{Fault, Frame};
use machine::{Answer, Control, Refusal, Step};

// Whether there is a chip, its Control, and whether that is valid: tested once for many lines, since a step of a valid record leaves a valid one.
#[derive(Clone, Copy)]
pub struct Held {
    // Beside the Control, as Session has it.
    pub present: bool,
    pub control: Control,
    pub ok: bool,
    ghost tested: { ok ≡ valid control },
}

impl Held {
    ghost use Rattle.machine.specs.Record.{chip_over};
    ghost use Rattle.std.specs.Prelude.{Ok};
    ghost use Rattle.line.specs.declared.Frame.TheVariants.{Begin, Does};
    ghost use Rattle.session.specs.Bench.{bench, turned, report_of};
    ghost use Rattle.session.specs.Turns.{turn_by, held_by, LeavesTurn};

    // Of a session that is handed in.
    pub(crate) fn new(session: Session) -> Self
        ensures { result ≡ held_by session.present session.control }
    {
        Held {
            present: session.present,
            control: session.control,
            ok: control::is_valid(session.control),
        }
    }

    // The answer of a frame, and the chip as the frame leaves it.
    fn answers(self, answer: Answer) -> Turn
        ensures { result ≡ turn_by self.present self.control (Ok answer) }
    {
        Turn {
            held: self,
            answer: Ok(answer),
        }
    }

    fn begin(self, buffer: &mut [u8; 128], pins: u8) -> Turn
        ensures { LeavesTurn (turned (bench self.present (chip_over self.control buffer.old)) (Ok (Begin pins))) result buffer.new }
    {
        match chip::start(pins) {
            Ok(control) => {
                *buffer = [0u8; 128];
                let held = Held {
                    present: true,
                    control,
                    ok: true,
                };
                held.answers(Answer::Done)
            }
            Err(refusal) => self.answers(refusal.into()),
        }
    }

    fn take_step(self, buffer: &mut [u8; 128], s: Step) -> Turn
        ensures { LeavesTurn (turned (bench self.present (chip_over self.control buffer.old)) (Ok (Does s))) result buffer.new }
    {
        let Held {
            present,
            control,
            ok,
        } = self;
        if !present {
            return self.answers(Refusal::NotBegun.into());
        }
        if ok {
            let r = chip::proceed_lent(control, buffer, s);
            let held = Held {
                present,
                control: r.control,
                ok,
            };
            return held.answers(r.answer);
        }
        self.answers(Refusal::NotValid.into())
    }

    pub(crate) fn turn(self, buffer: &mut [u8; 128], line: Result<Frame, Fault>) -> Turn
        ensures { LeavesTurn (turned (bench self.present (chip_over self.control buffer.old)) line) result buffer.new }
    {
        match line {
            Err(f) => Turn {
                held: self,
                answer: Err(f),
            },
            Ok(Frame::Begin(pins)) => self.begin(buffer, pins),
            Ok(Frame::Does(s)) => self.take_step(buffer, s),
        }
    }

    // The report of a line: four bytes, two capital digits each, and LF. Without a chip, lines and count are 00.
    // An array, as `report_of` has its nine bytes: a formatter would write a text, to be copied.
    pub(crate) fn report(self, answer: Result<Answer, Fault>) -> [u8; REPORT]
        ensures { result ≡ report_of answer self.present self.control }
    {
        let n = line::number_of(answer);
        let v = line::value_of(answer);
        let (lines, count) = if self.present {
            (control::lines_of(self.control), self.control.count)
        } else {
            (0, 0)
        };
        [
            frame::hex_digit(n / 16),
            frame::hex_digit(n),
            frame::hex_digit(v / 16),
            frame::hex_digit(v),
            frame::hex_digit(lines / 16),
            frame::hex_digit(lines),
            frame::hex_digit(count / 16),
            frame::hex_digit(count),
            LF,
        ]
    }
}
