// A chip record that a host lends, and that one step alters where it is held.
#![tactic(auto)]

ghost use Rattle.machine.specs.Step.{step};
ghost use Rattle.machine.specs.Leaves.{LeavesChip};

use machine::{Answer, Chip, Step};

// The step by value, over the record where it is held: its answer, and the record at exit. A refusal leaves the record as it was.
pub fn step_in_place(k: &mut Chip, s: Step) -> Answer
    ensures { LeavesChip (step k.old s) result k.new }
{
    let r = chip::step_chip(*k, s);
    *k = r.chip;
    r.answer
}
