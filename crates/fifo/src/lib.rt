// The FIFO: bytes offered and asked for, and what a moved byte does to both sides. A Control and a side are two arguments, as in `control`.
#![tactic(auto)]

ghost use Rattle.std.specs.Prelude.{◌≡◌, true};
ghost use Rattle.machine.specs.Fifo.{accepted, given};
ghost use Rattle.machine.specs.Moves.{events, moved_side, moved, stored_at, after_accepted, after_given};
ghost use Rattle.machine.specs.Step.{fits, failed, offering, taking};
ghost use Rattle.fifo.specs.Transfers.{transferred};

use machine::{Answer, Control, Effect, Plan, Reply, Side, Source, Which};

// ---- a moved byte

// What it raises on a side that is then at this count.
#[tactic(auto, unfolding(machine::specs::Moves::events))]
fn events_of(matched: bool, count: u8, s: Side) -> u8
    ensures { result ≡ events matched count s }
{
    let pattern = bits::choose(matched, Source::PATTERN, 0);
    let status = bits::choose(count == s.compare, Source::STATUS, 0);
    let full = bits::choose(count == machine::PLACES, Source::FULL, 0);
    let empty = bits::choose(count == 0, Source::EMPTY, 0);
    pattern | (status | (full | empty))
}

// A side after it. `matched`: the side moved it, and it matched.
#[tactic(auto, unfolding(machine::specs::Moves::moved_side))]
fn move_on(control: Control, which: Which, matched: bool, count: u8) -> Side
    ensures { result ≡ moved_side control which matched count }
{
    let events = events_of(matched, count, control::side_of(control, which));
    Side {
        run: control::run_after(control, which, count),
        ..control::raise(control, which, events)
    }
}

fn move_byte(control: Control, which: Which, matched: bool, start: u8, count: u8) -> Control
    ensures { result ≡ moved control which matched start count }
{
    let one = control::is_one(which);
    Control {
        one: move_on(control, Which::One, one & matched, count),
        two: move_on(control, Which::Two, !one & matched, count),
        start,
        count,
        ..control
    }
}

// The record after an accepted byte.
fn accept(control: Control, which: Which, matched: bool) -> Control
    requires { accepted control which ≡ true }
    ensures { result ≡ after_accepted control which matched }
{
    move_byte(control, which, matched, control.start, control.count + 1)
}

// The record after a given byte.
fn give(control: Control, which: Which, matched: bool) -> Control
    requires { given control which ≡ true }
    ensures { result ≡ after_given control which matched }
{
    move_byte(
        control,
        which,
        matched,
        (control.start % 128 + 1) % 128,
        control.count - 1,
    )
}

// The record after a byte that moves in or out; none moves where it may not. `matched`: it matches the pattern of the side that moves it.
// The way is a flag, as `transferred` takes it.
#[tactic(auto, unfolding(crate::specs::Transfers::transferred))]
pub fn transfer(control: Control, which: Which, inward: bool, matched: bool) -> Option<Control>
    ensures { result ≡ transferred control which inward matched }
{
    if inward {
        if control::accepts_byte(control, which) {
            return Some(accept(control, which, matched));
        }
    } else if control::gives_byte(control, which) {
        return Some(give(control, which, matched));
    }
    None
}

// ---- offered and asked for: two functions, since all but Waiting is answered otherwise

// A byte against a side's Match and Mask.
#[tactic(auto, unfolding(machine::specs::Step::fits))]
pub fn fits_pattern(control: Control, which: Which, byte: u8) -> bool
    ensures { result ≡ fits control which byte }
{
    let s = control::side_of(control, which);
    bits::is_match(byte, s.pattern, s.mask)
}

// The place of an accepted byte.
pub fn place_of(control: Control) -> u8
    ensures { result ≡ stored_at control }
{
    (control.start % 128 + control.count % 128) % 128
}

// The side that tried gets an error event.
#[tactic(auto, unfolding(machine::specs::Step::failed))]
fn fail(control: Control, which: Which, answer: Answer) -> Plan
    ensures { result ≡ failed control which answer }
{
    let s = control::raise(control, which, Source::ERROR);
    Plan::keep(control::with_side(control, which, s), answer)
}

// A byte offered. `matched`: it matches the pattern of the side that offers it.
#[tactic(auto, unfolding(machine::specs::Step::offering))]
pub fn offer(control: Control, dma: bool, which: Which, matched: bool) -> Plan
    ensures { result ≡ offering control dma which matched }
{
    if control::is_in_reset(control, which) {
        return Plan::keep(control, Answer::Done);
    }
    if !dma & control::is_writer(control, which) & control::would_wait(control, which) {
        return Plan::keep(control, Answer::Waiting);
    }
    if control::accepts_byte(control, which) {
        return Plan {
            next: accept(control, which, matched),
            effect: Effect::Place(place_of(control)),
            reply: Reply::Says(Answer::Done),
        };
    }
    fail(control, which, Answer::Done)
}

// A byte asked for. `matched`: the one in front matches the pattern of the side that asks.
#[tactic(auto, unfolding(machine::specs::Step::taking))]
pub fn take(control: Control, dma: bool, which: Which, matched: bool) -> Plan
    ensures { result ≡ taking control dma which matched }
{
    if control::is_in_reset(control, which) {
        return Plan::keep(control, Answer::Byte(0));
    }
    if !dma & !control::is_writer(control, which) & control::would_wait(control, which) {
        return Plan::keep(control, Answer::Waiting);
    }
    if control::gives_byte(control, which) {
        return Plan {
            next: give(control, which, matched),
            effect: Effect::Keep,
            reply: Reply::Front,
        };
    }
    fail(control, which, Answer::Byte(0))
}
