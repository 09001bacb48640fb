// The sixteen registers of a side: what each reads, and what a write to it does.
// A Control and a side are two arguments, as in `control`.
#![tactic(auto)]

ghost use Rattle.std.specs.Prelude.{◌≡◌, cond};
ghost use Rattle.std.specs.Int.Bits.{bit_and};
ghost use Rattle.machine.specs.Record.{side_of, other};
ghost use Rattle.machine.specs.Request.{both_afresh};
ghost use Rattle.machine.specs.Reset.{emptied};
ghost use Rattle.machine.specs.Registers.{kept0, wrote0, frozen_by, wrote1, read1, byte_count, wrote2, read2, seen3, next3, told, drained, rerun, set3, wrote3};
ghost use Rattle.machine.specs.Registers.{sent, received, high_source, low_source, wrote_status, reads, after_read, wrote, released, reads_in_reset};
ghost use Rattle.registers.specs.Own.{wrote_own};

use machine::{Control, Control0, Control1, Control2, Control3, Register, Side, Source, Which};

// ---- Control 0 and 1

// Side 2 holds bits 3-2 at zero.
#[tactic(auto, using(crate::proofs::Laws::keeps_b), unfolding(machine::specs::Registers::kept0))]
fn keep_control0(which: Which, x: u8) -> u8
    ensures { result ≡ kept0 which x }
{
    match which {
        Which::One => x,
        Which::Two => x & !Control0::B,
    }
}

#[tactic(auto, unfolding(machine::specs::Registers::wrote0))]
fn write_control0(control: Control, which: Which, x: u8) -> Control
    ensures { result ≡ wrote0 control which x }
{
    let s = control::side_of(control, which);
    let control0 = keep_control0(which, x);
    control::with_side(control, which, Side { control0, ..s })
}

// The count is held when freeze goes from 0 to 1.
#[tactic(auto, using(crate::proofs::Laws::freeze_is), unfolding(machine::specs::Registers::frozen_by))]
fn frozen_by(control: Control, which: Which, x: u8) -> u8
    ensures { result ≡ frozen_by control which x }
{
    let s = control::side_of(control, which);
    let freezes = (x & Control1::FREEZE != 0) & !(s.control1 & Control1::FREEZE != 0);
    bits::choose(freezes, control.count, s.frozen)
}

#[tactic(auto, using(crate::proofs::Laws::keeps_1), unfolding(machine::specs::Registers::wrote1))]
fn write_control1(control: Control, which: Which, x: u8) -> Control
    ensures { result ≡ wrote1 control which x }
{
    let s = Side {
        control1: x & !Control1::ZERO,
        frozen: frozen_by(control, which, x),
        run: control::run_afresh(control, which),
        ..control::side_of(control, which)
    };
    control::with_side(control, which, s)
}

// The stored byte, with message waiting in bit 5.
#[tactic(auto, using(crate::proofs::Laws::waiting_is), unfolding(machine::specs::Registers::read1))]
fn read_control1(s: Side) -> u8
    ensures { result ≡ read1 s }
{
    if s.waiting {
        return s.control1 | Control1::MESSAGE_WAITING;
    }
    s.control1
}

#[tactic(auto, using(bits::proofs::Laws::on, bits::proofs::Laws::off), unfolding(machine::specs::Registers::byte_count))]
fn read_byte_count(control: Control, which: Which) -> u8
    ensures { result ≡ byte_count control which }
{
    let s = control::side_of(control, which);
    if s.control1 & Control1::FREEZE != 0 {
        return s.frozen;
    }
    control.count
}

// ---- Control 2

#[tactic(auto, using(crate::proofs::Laws::keeps_2), unfolding(machine::specs::Registers::wrote2))]
fn write_control2(control: Control, which: Which, x: u8) -> Control
    ensures { result ≡ wrote2 control which x }
{
    match which {
        Which::One => Control {
            control2: x & !Control2::ZERO,
            ..control
        },
        Which::Two => control,
    }
}

#[tactic(auto, unfolding(machine::specs::Registers::read2))]
fn read_control2(control: Control, which: Which) -> u8
    ensures { result ≡ read2 control which }
{
    match which {
        Which::One => control.control2,
        Which::Two => 0,
    }
}

// ---- Control 3

// Side 2 reads and writes bit 4 inverted.
#[tactic(auto, unfolding(machine::specs::Registers::seen3))]
fn see_control3(which: Which, x: u8) -> u8
    ensures { result ≡ seen3 which x }
{
    match which {
        Which::One => x,
        Which::Two => x ^ Control3::DIRECTION,
    }
}

// The bits of the mask as they are written if so, else as they stood.
fn choose_bits(may: bool, mask: u8, x: u8, old: u8) -> u8
    ensures { result ≡ cond may (bit_and x mask) (bit_and old mask) }
{
    bits::choose(may, x & mask, old & mask)
}

// Control 3 after the bits of x that this side may write. The owners are those before the write.
#[tactic(auto, using(crate::proofs::Laws::next3_is))]
fn next_control3(control: Control, which: Which, x: u8) -> u8
    ensures { result ≡ next3 control which x }
{
    let old = control.control3;
    let one = control::is_one(which);
    let owns_clear = control::is_named(which, old & Control3::CLEAR_OWNER != 0);
    let owns_direction = control::is_named(which, old & Control3::DIRECTION_OWNER != 0);
    let clear_owner = choose_bits(one, Control3::CLEAR_OWNER, x, old);
    let clear = choose_bits(owns_clear, Control3::CLEAR, x, old);
    let direction_owner = choose_bits(one, Control3::DIRECTION_OWNER, x, old);
    let direction = choose_bits(owns_direction, Control3::DIRECTION, x, old);
    clear_owner | (clear | (direction_owner | direction))
}

// The direction event on both sides, if the direction changed.
#[tactic(auto, unfolding(machine::specs::Registers::told))]
fn tell_direction(control: Control, turned: bool) -> Control
    ensures { result ≡ told turned control }
{
    let event = bits::choose(turned, Source::DIRECTION, 0);
    Control {
        one: control::raise(control, Which::One, event),
        two: control::raise(control, Which::Two, event),
        ..control
    }
}

// Start and count 0.
#[tactic(auto, unfolding(machine::specs::Reset::emptied))]
pub fn empty_fifo(control: Control) -> Control
    ensures { result ≡ emptied control }
{
    Control {
        start: 0,
        count: 0,
        ..control
    }
}

// CLEAR at 0 empties the FIFO.
#[tactic(auto, unfolding(machine::specs::Registers::drained))]
fn drain(control: Control) -> Control
    ensures { result ≡ drained control }
{
    if control::is_clear_1(control) {
        return control;
    }
    empty_fifo(control)
}

fn both_afresh(control: Control) -> Control
    ensures { result ≡ both_afresh control }
{
    Control {
        one: Side {
            run: control::run_afresh(control, Which::One),
            ..control.one
        },
        two: Side {
            run: control::run_afresh(control, Which::Two),
            ..control.two
        },
        ..control
    }
}

// Run afresh on both sides, if the direction changed or CLEAR is 0.
#[tactic(auto, unfolding(machine::specs::Registers::rerun))]
fn rerun_both(control: Control, turned: bool) -> Control
    ensures { result ≡ rerun turned control }
{
    if turned | !control::is_clear_1(control) {
        return both_afresh(control);
    }
    control
}

#[tactic(auto, using(crate::proofs::Laws::turned_is), unfolding(machine::specs::Registers::set3))]
fn set_control3(control: Control, x: u8) -> Control
    ensures { result ≡ set3 control x }
{
    let turned = (control.control3 ^ x) & Control3::DIRECTION != 0;
    let written = Control {
        control3: x,
        ..control
    };
    let told = tell_direction(written, turned);
    let drained = drain(told);
    rerun_both(drained, turned)
}

#[tactic(auto, unfolding(machine::specs::Registers::wrote3))]
fn write_control3(control: Control, which: Which, x: u8) -> Control
    ensures { result ≡ wrote3 control which x }
{
    let seen = see_control3(which, x);
    let next = next_control3(control, which, seen);
    set_control3(control, next)
}

// ---- messages

#[tactic(auto, unfolding(machine::specs::Registers::sent))]
fn send_message(control: Control, which: Which, x: u8) -> Control
    ensures { result ≡ sent control which x }
{
    let receiver = control::other_side(which);
    let t = control::raise(control, receiver, Source::MESSAGE);
    let s = Side {
        message: x,
        waiting: true,
        ..control::side_of(control, which)
    };
    let c = control::with_side(control, which, s);
    control::with_side(c, receiver, t)
}

#[tactic(auto, using(crate::proofs::Laws::clears_message), unfolding(machine::specs::Registers::received))]
fn receive_message(control: Control, which: Which) -> Control
    ensures { result ≡ received control which }
{
    let sender = control::other_side(which);
    let t = Side {
        waiting: false,
        ..control::side_of(control, sender)
    };
    let s = control::side_of(control, which);
    let ip = s.ip & !Source::MESSAGE;
    let c = control::with_side(control, which, Side { ip, ..s });
    control::with_side(c, sender, t)
}

// ---- Interrupt Status 0-3

// The sources in the high and the low half, by the register's number.
fn sources_in(n: u8) -> (u8, u8)
    ensures { result ≡ (high_source n, low_source n) }
{
    match n {
        Register::STATUS_0 => (7, 0),
        Register::STATUS_1 => (6, 5),
        Register::STATUS_2 => (4, 3),
        _ => (2, 1),
    }
}

// ---- the sixteen

// A register is a number and no enum: the public functions answer for any byte, which a record's pointer and so `Register.number` may hold.

// What the register numbered n reads on a live side.
#[tactic(auto, unfolding(machine::specs::Registers::reads))]
pub fn read_register(control: Control, which: Which, n: u8) -> u8
    ensures { result ≡ reads control which n }
{
    let s = control::side_of(control, which);
    match n {
        Register::CONTROL_0 => s.control0,
        Register::CONTROL_1 => read_control1(s),
        Register::STATUS_0 | Register::STATUS_1 | Register::STATUS_2 | Register::STATUS_3 => {
            let (high, low) = sources_in(n);
            side::status_of(high, low, s)
        }
        Register::VECTOR => side::read_vector(s),
        Register::BYTE_COUNT => read_byte_count(control, which),
        Register::COUNT_COMPARE => s.compare,
        Register::CONTROL_2 => read_control2(control, which),
        Register::CONTROL_3 => see_control3(which, control.control3),
        Register::MESSAGE_OUT => s.message,
        Register::MESSAGE_IN => read_message_in(control, which),
        Register::MATCH => s.pattern,
        Register::MASK => s.mask,
        _ => 0,
    }
}

fn read_message_in(control: Control, which: Which) -> u8
    ensures { result ≡ (side_of control (other which)).message }
{
    control::side_of(control, control::other_side(which)).message
}

// What reading it does.
#[tactic(auto, unfolding(machine::specs::Registers::after_read))]
pub fn after_read(control: Control, which: Which, n: u8) -> Control
    ensures { result ≡ after_read control which n }
{
    if n == Register::MESSAGE_IN {
        return receive_message(control, which);
    }
    control
}

// A write is commands to the sources in its halves.
#[tactic(auto, unfolding(machine::specs::Registers::wrote_status))]
fn write_status(control: Control, which: Which, n: u8, x: u8) -> Control
    ensures { result ≡ wrote_status control which n x }
{
    let s = control::side_of(control, which);
    let (high, low) = sources_in(n);
    control::with_side(control, which, side::command_both(high, low, x, s))
}

// Vector, Count Compare, Match and Mask take the byte as it is.
fn write_own(control: Control, which: Which, n: u8, x: u8) -> Control
    ensures { result ≡ wrote_own control which n x }
{
    let s = control::side_of(control, which);
    let t = match n {
        Register::VECTOR => Side { vector: x, ..s },
        Register::COUNT_COMPARE => Side { compare: x, ..s },
        Register::MATCH => Side { pattern: x, ..s },
        Register::MASK => Side { mask: x, ..s },
        _ => s,
    };
    control::with_side(control, which, t)
}

// What writing x to the register numbered n does on a live side.
#[tactic(auto, unfolding(machine::specs::Registers::wrote))]
pub fn write_register(control: Control, which: Which, n: u8, x: u8) -> Control
    ensures { result ≡ wrote control which n x }
{
    match n {
        Register::CONTROL_0 => write_control0(control, which, x),
        Register::CONTROL_1 => write_control1(control, which, x),
        Register::STATUS_0 | Register::STATUS_1 | Register::STATUS_2 | Register::STATUS_3 => {
            write_status(control, which, n, x)
        }
        Register::VECTOR | Register::COUNT_COMPARE | Register::MATCH | Register::MASK => write_own(
            control, which, n, x,
        ),
        Register::CONTROL_2 => write_control2(control, which, x),
        Register::CONTROL_3 => write_control3(control, which, x),
        Register::MESSAGE_OUT => send_message(control, which, x),
        _ => control,
    }
}

// ---- in reset

// Only a Control 0 write with bit 0 clear acts, and it clears that bit only.
#[tactic(auto, using(crate::proofs::Laws::reset_is, crate::proofs::Laws::clears_reset), unfolding(machine::specs::Registers::released))]
pub fn release(control: Control, which: Which, n: u8, x: u8) -> Control
    ensures { result ≡ released control which n x }
{
    if (n == Register::CONTROL_0) & !(x & Control0::RESET != 0) {
        let s = control::side_of(control, which);
        let control0 = s.control0 & !Control0::RESET;
        return control::with_side(control, which, Side { control0, ..s });
    }
    control
}

#[tactic(auto, unfolding(machine::specs::Registers::reads_in_reset))]
pub fn read_in_reset(n: u8) -> u8
    ensures { result ≡ reads_in_reset n }
{
    if n == Register::CONTROL_0 {
        return Control0::RESET;
    }
    0
}
