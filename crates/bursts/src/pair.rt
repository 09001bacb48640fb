// A burst and the same single steps: all that they leave is compared.
ghost use Rattle.std.specs.Prelude.{◌≤◌, length};

use crate::single::step_each;
use dma::{BurstAnswer, Way};
use machine::{Chip, Which};
use std::{array, fmt};

// A burst of a script, over the first bytes of a memory of 4097.
#[derive(Clone, Copy)]
pub(crate) struct BurstFrame {
    pub way: Way,
    pub side: Which,
    pub size: usize,
    ghost within: { size ≤ 4097 },
}

// What a burst left, and whether it is what its single steps leave: the first four bytes are those of memory after a burst out, of the buffer after one in.
#[derive(Clone, Copy)]
pub(crate) struct Judged {
    same: bool,
    answer: BurstAnswer,
    count: u8,
    first_four: u32,
}

// The answer's number, the bytes moved, the count after, and the first four bytes.
impl fmt::Display for Judged {
    fn fmt<W: fmt::Write>(&self, f: &mut fmt::Formatter<W>) -> fmt::Result {
        let number = self.answer.number_of();
        let moved = self.answer.value_of();
        write!(
            f,
            "{number:02x} {moved}, count {}, bytes {:08x}",
            self.count, self.first_four
        )?;
        if self.same {
            return Ok(());
        }
        f.write_str(", NOT what its single steps do")
    }
}

fn first_four(bytes: &[u8]) -> u32
    requires { 4 ≤ length bytes.now }
{
    u32::from_be_bytes([bytes[0], bytes[1], bytes[2], bytes[3]])
}

impl BurstFrame {
    // What memory holds before the burst: 00, 01, 02 and so on, or EE where a burst out fills it.
    fn memory(self) -> [u8; 4097] {
        match self.way {
            Way::In => array::from_fn(|i| (i % 256) as u8),
            Way::Out => [0xEE; 4097],
        }
    }

    fn run(self, chip: &mut Chip, memory: &mut [u8]) -> BurstAnswer {
        let buffer = &mut chip.payload.buffer;
        let r = match self.way {
            Way::In => burst::burst_in_lent(chip.control, buffer, self.side, memory),
            Way::Out => burst::burst_out_lent(chip.control, buffer, self.side, memory),
        };
        chip.control = r.control;
        r.answer
    }

    // The burst, and its single steps with a chip and a memory of their own. They get all the bytes if the burst began, none if it is refused or Floating.
    pub(crate) fn judge(self, chip: &mut Chip) -> Judged {
        let mut single_chip = *chip;
        let mut memory = self.memory();
        let mut single_memory = memory;
        let answer = self.run(chip, &mut memory[..self.size]);
        let given = match answer {
            BurstAnswer::Moved(_) => self.size,
            _ => 0,
        };
        let steps = step_each(
            self.way,
            self.side,
            &mut single_chip,
            &mut single_memory[..given],
        );
        Judged {
            same: *chip == single_chip
                && memory == single_memory
                && answer.value_of() as usize == steps,
            answer,
            count: chip.control.count,
            first_four: match self.way {
                Way::In => first_four(&chip.payload.buffer),
                Way::Out => first_four(&memory),
            },
        }
    }
}
