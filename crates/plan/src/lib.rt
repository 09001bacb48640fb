// What is planned for what a step asks for, and the end of the step.
// A Control and a side are two arguments, as in `control`.
#![tactic(auto)]

ghost use Rattle.std.specs.Prelude.{◌≡◌, true};
ghost use Rattle.machine.specs.Reset.{reset_side, fresh, reset, wiped};
ghost use Rattle.machine.specs.Step.{renewed, storing, loading, aimed, granted, plan, verdict, is_waiting, ended, planned, decided};

use machine::{
    Action, Answer, Control, Control0, Effect, Plan, Refusal, Register, Reply, Side, Step, Which,
};

// ---- resets and registers

// A side as reset leaves it.
fn reset_side() -> Side
    ensures { result ≡ reset_side }
{
    Side {
        control0: Control0::RESET,
        ..Side::default()
    }
}

// The Control of a new chip.
pub fn fresh_control(pins: u8) -> Control
    ensures { result ≡ fresh pins }
{
    Control {
        pins,
        one: reset_side(),
        two: reset_side(),
        ..Control::default()
    }
}

// Side 1's leaves the Control as new.
#[tactic(auto, unfolding(machine::specs::Reset::reset))]
fn reset_control(control: Control, which: Which) -> Control
    ensures { result ≡ reset control which }
{
    match which {
        Which::One => fresh_control(control.pins),
        Which::Two => Control {
            two: reset_side(),
            ..control
        },
    }
}

fn wipe_by(which: Which) -> Effect
    ensures { result ≡ wiped which }
{
    match which {
        Which::One => Effect::Wipe,
        Which::Two => Effect::Keep,
    }
}

#[tactic(auto, unfolding(machine::specs::Step::renewed))]
fn renew(control: Control, which: Which) -> Plan
    ensures { result ≡ renewed control which }
{
    Plan {
        next: reset_control(control, which),
        effect: wipe_by(which),
        reply: Reply::Says(Answer::Done),
    }
}

#[tactic(auto, using(registers::proofs::Laws::reset_is), unfolding(machine::specs::Step::storing))]
fn store(control: Control, which: Which, n: u8, x: u8) -> Plan
    ensures { result ≡ storing control which n x }
{
    if control::is_in_reset(control, which) {
        return Plan::keep(registers::release(control, which, n, x), Answer::Done);
    }
    if (n == Register::CONTROL_0) & (x & Control0::RESET != 0) {
        return renew(control, which);
    }
    Plan::keep(
        registers::write_register(control, which, n, x),
        Answer::Done,
    )
}

#[tactic(auto, unfolding(machine::specs::Step::loading))]
fn load(control: Control, which: Which, n: u8) -> Plan
    ensures { result ≡ loading control which n }
{
    if control::is_in_reset(control, which) {
        return Plan::keep(control, Answer::Byte(registers::read_in_reset(n)));
    }
    let byte = registers::read_register(control, which, n);
    Plan::keep(registers::after_read(control, which, n), Answer::Byte(byte))
}

#[tactic(auto, unfolding(machine::specs::Step::aimed))]
fn aim(control: Control, which: Which, pointer: u8) -> Control
    ensures { result ≡ aimed control which pointer }
{
    let s = Side {
        pointer,
        state1: true,
        ..control::side_of(control, which)
    };
    control::with_side(control, which, s)
}

#[tactic(auto, using(side::proofs::Laws::source_mod), unfolding(machine::specs::Step::granted))]
fn grant(control: Control, which: Which) -> Plan
    ensures { result ≡ granted control which }
{
    let s = control::side_of(control, which);
    let k = side::due_source(s);
    let next = control::with_side(control, which, side::serve(k, s));
    Plan::keep(next, side::give(s, k))
}

#[tactic(auto, unfolding(machine::specs::Step::plan, machine::specs::Step::verdict))]
fn plan_of(control: Control, asked: Action, byte: u8, front: u8) -> Plan
    ensures { result ≡ plan control asked (verdict control asked byte front) }
{
    match asked {
        Action::Offer { dma, side } => fifo::offer(
            control,
            dma,
            side,
            fifo::fits_pattern(control, side, byte),
        ),
        Action::Take { dma, side } => fifo::take(
            control,
            dma,
            side,
            fifo::fits_pattern(control, side, front),
        ),
        Action::Store {
            side,
            register,
            data,
        } => store(control, side, register.number, data),
        Action::Load { side, register } => load(control, side, register.number),
        Action::Aim { side, pointer } => Plan::keep(aim(control, side, pointer), Answer::Done),
        Action::Grant { side } => grant(control, side),
        Action::Renew { side } => renew(control, side),
        Action::Float => Plan::keep(control, Answer::Floating),
        Action::Refuse(n) => Plan::keep(control, Answer::Refused(n)),
    }
}

// ---- the end of the step

fn is_waiting(reply: Reply) -> bool
    ensures { result ≡ is_waiting reply }
{
    matches!(reply, Reply::Says(Answer::Waiting))
}

// State 1 returns to State 0, but not at Waiting.
#[tactic(auto, unfolding(machine::specs::Step::ended))]
fn end_step(which: Which, p: Plan) -> Plan
    ensures { result ≡ ended true which p }
{
    if is_waiting(p.reply) {
        return p;
    }
    let s = Side {
        state1: false,
        ..control::side_of(p.next, which)
    };
    Plan {
        next: control::with_side(p.next, which, s),
        ..p
    }
}

// The step of a valid record, by the byte in front.
#[tactic(auto, unfolding(machine::specs::Step::planned, machine::specs::Step::ended))]
pub fn plan_step(control: Control, s: Step, front: u8) -> Plan
    ensures { result ≡ planned control s front }
{
    let asked = action::action_of(control, s);
    let byte = action::byte_in(s);
    let p = plan_of(control, asked, byte, front);
    if action::closes_step(control, s) {
        let which = action::side_in(s);
        return end_step(which, p);
    }
    p
}

#[tactic(auto, unfolding(machine::specs::Step::decided))]
pub fn decide(control: Control, s: Step, front: u8) -> Plan
    ensures { result ≡ decided control s front }
{
    if control::is_valid(control) {
        return plan_step(control, s, front);
    }
    Plan::keep(control, Answer::from(Refusal::NotValid))
}
