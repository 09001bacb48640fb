// A burst: single DMA steps with nothing between them, while the side's REQUEST is active and memory remains. Over a Control and a lent buffer, and over a Chip
// by value.
#![tactic(auto)]

ghost use Rattle.std.specs.Prelude.{◌≡◌, ◌+◌, ◌<◌};
ghost use Rattle.machine.specs.Record.{chip_over};
ghost use Rattle.machine.specs.Request.{request};
ghost use Rattle.machine.specs.Step.{proceeded};
ghost use Rattle.dma.specs.declared.Way.TheVariants.{In, Out};
ghost use Rattle.dma.specs.declared.BurstAnswer.TheVariants.{Moved};
ghost use Rattle.dma.specs.Answers.{paper};
ghost use Rattle.dma.specs.Burst.{role, begins, burst, filled};
ghost use Rattle.chip.specs.Lent.{LeavesStep};
ghost use Rattle.burst.specs.Lent.{LeavesBurst};

use chip::BesideBuffer;
use dma::{BurstAnswer, LIMIT, Way};
use machine::{Answer, Chip, Control, Refusal, Step, Stepped, Which};

// The side is the writer for a burst into the FIFO, the reader for one out of it.
fn has_role(way: Way, control: Control, side: Which) -> bool
    ensures { result ≡ role way control side }
{
    let writes = control::is_writer(control, side);
    match way {
        Way::In => writes,
        Way::Out => !writes,
    }
}

// Whether a burst with so much memory begins. Order: 1, Floating, 6, 7.
#[tactic(auto, unfolding(dma::specs::Burst::begins))]
fn may_begin(way: Way, control: Control, side: Which, memory: usize) -> Result<(), BurstAnswer>
    ensures { result ≡ begins way control side memory }
{
    let apt = has_role(way, control, side);
    let fits = memory <= LIMIT;
    if !control::is_valid(control) {
        return Err(Refusal::NotValid.into());
    }
    if !control::is_live(control, side) {
        return Err(BurstAnswer::Floating);
    }
    if !fits {
        return Err(Refusal::MemoryTooLong.into());
    }
    if !apt {
        return Err(Refusal::NotInRole.into());
    }
    Ok(())
}

// ---- the single steps

// The Control after them, and how many they were.
#[derive(Clone, Copy)]
struct Run {
    control: Control,
    moved: u16,
}

impl Run {
    // REQUEST is active.
    fn goes_on(self, side: Which) -> bool
        ensures { result ≡ request self.control side }
    {
        control::requests(self.control, side)
    }

    // One more, and its answer.
    fn single(&mut self, buffer: &mut [u8; 128], s: Step) -> Answer
        requires { self.old.moved < 4096 }
        ensures step { LeavesStep (proceeded (chip_over self.old.control buffer.old) s) (record { control = self.new.control; answer = result }) buffer.new }
        ensures moved { self.new.moved ≡ self.old.moved + 1 }
    {
        let r = chip::proceed_lent(self.control, buffer, s);
        self.control = r.control;
        self.moved += 1;
        r.answer
    }

    // What the burst of them hands back.
    fn ended(self) -> BesideBuffer<BurstAnswer>
        ensures { result ≡ record { control = self.control; answer = Moved self.moved } }
    {
        BesideBuffer {
            control: self.control,
            answer: BurstAnswer::Moved(self.moved),
        }
    }
}

// ---- over a Control and a lent buffer
// One function for both ways would be no plainer: `&[u8]` is read and `&mut [u8]` written, and what their loops share is Run's methods.

// From lent memory to the FIFO: a DMA write of each byte of memory.
pub fn burst_in_lent(
    control: Control,
    buffer: &mut [u8; 128],
    side: Which,
    memory: &[u8],
) -> BesideBuffer<BurstAnswer>
    ensures { LeavesBurst (burst In (chip_over control buffer.old) side memory.now) result buffer.new }
{
    if let Err(answer) = may_begin(Way::In, control, side, memory.len()) {
        return BesideBuffer { control, answer };
    }
    let mut sent = Run { control, moved: 0 };
    for &byte in memory {
        if !sent.goes_on(side) {
            break;
        }
        sent.single(buffer, Step::DmaWrite { side, data: byte });
    }
    sent.ended()
}

// From the FIFO to lent memory: a DMA read to each place of memory. Behind the bytes moved it keeps its content.
pub fn burst_out_lent(
    control: Control,
    buffer: &mut [u8; 128],
    side: Which,
    memory: &mut [u8],
) -> BesideBuffer<BurstAnswer>
    ensures burst { LeavesBurst (burst Out (chip_over control buffer.old) side memory.old) result buffer.new }
    ensures memory { memory.new ≡ filled (chip_over control buffer.old) side memory.old }
{
    if let Err(answer) = may_begin(Way::Out, control, side, memory.len()) {
        return BesideBuffer { control, answer };
    }
    let mut got = Run { control, moved: 0 };
    for place in memory.iter_mut() {
        if !got.goes_on(side) {
            break;
        }
        *place = got.single(buffer, Step::DmaRead { side }).value_of();
    }
    got.ended()
}

// ---- over a Chip by value, two functions as above

pub fn burst_in_chip(k: Chip, side: Which, memory: &[u8]) -> Stepped<BurstAnswer>
    ensures { (result ≡ burst In k side memory.now) × (paper result.answer ≡ paper (burst In k side memory.now).answer) }
{
    let mut buffer = k.payload.buffer;
    let r = burst_in_lent(k.control, &mut buffer, side, memory);
    r.join(buffer)
}

pub fn burst_out_chip(k: Chip, side: Which, memory: &mut [u8]) -> Stepped<BurstAnswer>
    ensures burst { (result ≡ burst Out k side memory.old) × (paper result.answer ≡ paper (burst Out k side memory.old).answer) }
    ensures memory { memory.new ≡ filled k side memory.old }
{
    let mut buffer = k.payload.buffer;
    let r = burst_out_lent(k.control, &mut buffer, side, memory);
    r.join(buffer)
}
