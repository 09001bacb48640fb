// Steps of a chip, and a burst's single DMA steps, one by one.
use dma::Way;
use machine::{Answer, Chip, Step, Which};

// Over the lent buffer, as the burst is; `lent::step_in_place` steps by value.
pub(crate) fn take_step(chip: &mut Chip, s: Step) -> Answer {
    let r = chip::step_lent(chip.control, &mut chip.payload.buffer, s);
    chip.control = r.control;
    r.answer
}

// A step for each byte of memory, while REQUEST is active: it is asked before each, the first too. The number of steps.
pub(crate) fn step_each(way: Way, side: Which, chip: &mut Chip, memory: &mut [u8]) -> usize {
    let most = memory.len();
    for (steps, place) in memory.iter_mut().enumerate() {
        if !control::requests(chip.control, side) {
            return steps;
        }
        match way {
            Way::In => {
                take_step(chip, Step::DmaWrite { side, data: *place });
            }
            Way::Out => {
                *place = take_step(chip, Step::DmaRead { side }).value_of();
            }
        }
    }
    most
}
