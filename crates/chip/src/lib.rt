// A step and a start: the plan carried out on the buffer, which comes by value or is lent.
#![tactic(auto)]

ghost use Rattle.std.specs.Prelude.{◌≡◌};
ghost use Rattle.machine.specs.Record.{payload, chip_over};
ghost use Rattle.machine.specs.Answers.{paper, start_answer};
ghost use Rattle.machine.specs.Reset.{started};
ghost use Rattle.machine.specs.Step.{front_of, on_payload, answered, proceeded, step};
ghost use Rattle.chip.specs.Lent.{joined, LeavesStep};
ghost use Rattle.chip.specs.Dma.{dma_in};

use machine::{Answer, Chip, Control, Effect, Payload, Refusal, Reply, Step, Stepped, Which};

// All that a step or a burst over a lent buffer hands back beside it: the rest of the record, and the answer. A Control by value
// with the buffer lent beside it are two arguments, as hosts in C hold them (fio_step); Chip is both.
#[derive(Clone, Copy)]
pub struct BesideBuffer<A> {
    pub control: Control,
    pub answer: A,
}

impl<A> BesideBuffer<A> {
    // With the buffer, all that is left.
    pub fn join(self, buffer: [u8; 128]) -> Stepped<A>
        ensures { result ≡ joined self buffer }
    {
        Stepped {
            chip: Chip {
                control: self.control,
                payload: Payload { buffer },
            },
            answer: self.answer,
        }
    }
}

// The new chip's Control, or refusal 3 and no chip.
pub fn start(pins: u8) -> Result<Control, Refusal>
    ensures { (result ≡ started pins) × (paper (start_answer result) ≡ paper (start_answer (started pins))) }
{
    if pins <= 2 {
        return Ok(plan::fresh_control(pins));
    }
    Err(Refusal::NoMode)
}

// The answer that a reply gives.
fn answer_of(reply: Reply, front: u8) -> Answer
    ensures { result ≡ answered reply front }
{
    match reply {
        Reply::Says(a) => a,
        Reply::Front => Answer::Byte(front),
    }
}

// The byte at start.
fn front_of(control: Control, buffer: &[u8; 128]) -> u8
    ensures { result ≡ front_of control (payload buffer.now) }
{
    buffer[(control.start as usize) % 128]
}

// The lent buffer, after an effect.
fn change_buffer(effect: Effect, byte: u8, buffer: &mut [u8; 128])
    ensures { buffer.new ≡ (on_payload effect byte (payload buffer.old)).buffer }
{
    match effect {
        Effect::Keep => {}
        Effect::Wipe => *buffer = [0; 128],
        Effect::Place(i) => buffer[(i as usize) % 128] = byte,
    }
}

// A step of any record: an answer and the record. Refusals leave the record as it was.
pub fn step_chip(k: Chip, s: Step) -> Stepped<Answer>
    ensures { (result ≡ step k s) × (paper result.answer ≡ paper (step k s).answer) }
{
    let mut buffer = k.payload.buffer;
    let front = front_of(k.control, &buffer);
    let p = plan::decide(k.control, s, front);
    change_buffer(p.effect, action::byte_in(s), &mut buffer);
    let r = BesideBuffer {
        control: p.next,
        answer: answer_of(p.reply, front),
    };
    r.join(buffer)
}

// A step of any record, over a Control by value and a lent buffer.
pub fn step_lent(control: Control, buffer: &mut [u8; 128], s: Step) -> BesideBuffer<Answer>
    ensures { LeavesStep (step (chip_over control buffer.old) s) result buffer.new }
{
    if control::is_valid(control) {
        return proceed_lent(control, buffer, s);
    }
    BesideBuffer {
        control,
        answer: Answer::from(Refusal::NotValid),
    }
}

// The step without refusal 1's test, by its plan.
fn plan_lent(control: Control, buffer: &mut [u8; 128], s: Step) -> BesideBuffer<Answer>
    ensures { LeavesStep (proceeded (chip_over control buffer.old) s) result buffer.new }
{
    let front = front_of(control, buffer);
    let p = plan::plan_step(control, s, front);
    change_buffer(p.effect, action::byte_in(s), buffer);
    BesideBuffer {
        control: p.next,
        answer: answer_of(p.reply, front),
    }
}

// ---- DMA, of which a long session has much

// The DMA that a step asks for. `inward`: its own way is in. `byte`: what it brings in, or 00. One record for both ways: with a variant for each
// `fifo::transfer` would be called twice, and no part of a line any more (docs/SPEED.md).
#[derive(Clone, Copy)]
struct Dma {
    inward: bool,
    side: Which,
    byte: u8,
}

fn dma_in(s: Step) -> Option<Dma>
    ensures { result ≡ dma_in s }
{
    match s {
        Step::DmaWrite { side, data } => Some(Dma {
            inward: true,
            side,
            byte: data,
        }),
        Step::DmaRead { side } => Some(Dma {
            inward: false,
            side,
            byte: 0,
        }),
        _ => None,
    }
}

// The step without refusal 1's test: whoever knows that a record is valid may take many steps without testing it again. A byte
// that DMA moves by its own way needs no plan.
pub fn proceed_lent(control: Control, buffer: &mut [u8; 128], s: Step) -> BesideBuffer<Answer>
    ensures { LeavesStep (proceeded (chip_over control buffer.old) s) result buffer.new }
{
    if let Some(d) = dma_in(s) {
        let front = front_of(control, buffer);
        let byte = bits::choose(d.inward, d.byte, front);
        let matched = fifo::fits_pattern(control, d.side, byte);
        if let Some(next) = fifo::transfer(control, d.side, d.inward, matched) {
            if d.inward {
                buffer[(fifo::place_of(control) as usize) % 128] = byte;
                return BesideBuffer {
                    control: next,
                    answer: Answer::Done,
                };
            }
            return BesideBuffer {
                control: next,
                answer: Answer::Byte(front),
            };
        }
    }
    plan_lent(control, buffer, s)
}
