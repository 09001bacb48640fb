// Scripts: frames of document 01, and frames of kinds that neither it nor a request has. 1A and 2A are a burst in, 1B and 2B one out;
// address and data are the number of bytes of memory. 1C sets the count to its data, above 128 too, as no step does.
use crate::pair::BurstFrame;
use crate::single::take_step;
use dma::Way;
use line::{Frame, Partial};
use machine::{Chip, Payload, Which};
use std::io;

// A frame of a script's own kinds.
#[derive(Clone, Copy)]
enum Own {
    Burst(BurstFrame),
    Count(u8),
}

#[derive(Clone, Copy)]
struct NoFrame;

impl TryFrom<u32> for Own {
    type Error = NoFrame;

    fn try_from(frame: u32) -> Result<Own, NoFrame> {
        let (way, side) = match frame / 65536 {
            0x1A => (Way::In, Which::One),
            0x1B => (Way::Out, Which::One),
            0x2A => (Way::In, Which::Two),
            0x2B => (Way::Out, Which::Two),
            0x1C => return Ok(Own::Count((frame % 256) as u8)),
            _ => return Err(NoFrame),
        };
        let size = (frame % 65536 % 4098) as usize;
        Ok(Own::Burst(BurstFrame { way, side, size }))
    }
}

// A burst is told with its frame, and compared with its single steps. Of a frame of another kind it is told that there is none.
fn take_own(rt: &impl Print, chip: &mut Chip, frame: u32) -> io::Result<()> {
    match Own::try_from(frame) {
        Ok(Own::Burst(b)) => {
            let judged = b.judge(chip);
            println!(rt; "  {frame:06x}: {judged}")
        }
        Ok(Own::Count(count)) => {
            chip.control.count = count;
            Ok(())
        }
        Err(NoFrame) => println!(rt; "  no frame"),
    }
}

// ---- a script

fn take_known(chip: &mut Chip, frame: Frame) {
    match frame {
        Frame::Begin(pins) => chip.control = plan::fresh_control(pins),
        Frame::Does(s) => {
            take_step(chip, s);
        }
    }
}

// What is no frame of document 01 is one of a script's own.
fn take_frame(rt: &impl Print, chip: &mut Chip, p: Partial) -> io::Result<()> {
    let read = frame::read_partial(p);
    match read {
        Ok(f) => {
            take_known(chip, f);
            Ok(())
        }
        Err(_) => take_own(rt, chip, p.value),
    }
}

// Each frame of a script is taken at the blank or LF behind it; the first is a start.
pub(crate) fn play(rt: &impl Print, script: &[u8]) -> io::Result<()> {
    let mut chip = Chip {
        control: plan::fresh_control(0),
        payload: Payload { buffer: [0; 128] },
    };
    let mut p = frame::blank_line();
    for &c in script {
        if c > b' ' {
            p = frame::more(p, c);
        } else {
            take_frame(rt, &mut chip, p)?;
            p = frame::blank_line();
        }
    }
    Ok(())
}
