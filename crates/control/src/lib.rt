// Both sides together: which are connected and live, who writes and who reads, the lines, and whether a record is valid.
// A Control and a Which are two arguments, as the definitions in machine take them: several functions ask for both sides of one Control.
#![tactic(auto)]

ghost use Rattle.std.specs.Prelude.{◌≡◌, cond};
ghost use Rattle.machine.specs.Record.{side_of, with_side, is_one, names, other};
ghost use Rattle.machine.specs.Modes.{b_of, bus_of, is_z_bus, is_high, is_non_z_bus, connected, in_reset, live};
ghost use Rattle.machine.specs.Fifo.{writer, clear, at_end, accepted, given, waits};
ghost use Rattle.machine.specs.Interrupts.{interrupt};
ghost use Rattle.machine.specs.Events.{raised};
ghost use Rattle.machine.specs.Request.{run_after, afresh, stopped, going, request};
ghost use Rattle.machine.specs.Validity.{zero_side, zero_shared, alone_in_reset, valid_side, run_fits, reset_fits, in_range, clear_fits, valid};
ghost use Rattle.machine.specs.History.{lines};

use machine::{Bus, Control, Control0, Control1, Control2, Control3, Side, Source, Which};

// ---- sides

// Field by field: chosen whole, sides lie in memory, and fiobench takes a third more instructions for a line (docs/DECISIONS.md).
fn choose_side(first: bool, a: Side, b: Side) -> Side
    ensures { result ≡ cond first a b }
{
    Side {
        control0: bits::choose(first, a.control0, b.control0),
        control1: bits::choose(first, a.control1, b.control1),
        ip: bits::choose(first, a.ip, b.ip),
        ie: bits::choose(first, a.ie, b.ie),
        ius: bits::choose(first, a.ius, b.ius),
        vector: bits::choose(first, a.vector, b.vector),
        compare: bits::choose(first, a.compare, b.compare),
        pattern: bits::choose(first, a.pattern, b.pattern),
        mask: bits::choose(first, a.mask, b.mask),
        pointer: bits::choose(first, a.pointer, b.pointer),
        state1: bits::choose(first, a.state1, b.state1),
        run: bits::choose(first, a.run, b.run),
        frozen: bits::choose(first, a.frozen, b.frozen),
        message: bits::choose(first, a.message, b.message),
        waiting: bits::choose(first, a.waiting, b.waiting),
    }
}

pub fn side_of(control: Control, which: Which) -> Side
    ensures { result ≡ side_of control which }
{
    choose_side(is_one(which), control.one, control.two)
}

pub fn with_side(control: Control, which: Which, side: Side) -> Control
    ensures { result ≡ with_side which side control }
{
    match which {
        Which::One => Control {
            one: side,
            ..control
        },
        Which::Two => Control {
            two: side,
            ..control
        },
    }
}

// The side that a bit names: 0 is side 1.
pub fn is_named(which: Which, bit: bool) -> bool
    ensures { result ≡ names which bit }
{
    match which {
        Which::One => !bit,
        Which::Two => bit,
    }
}

pub fn is_one(which: Which) -> bool
    ensures { result ≡ is_one which }
{
    matches!(which, Which::One)
}

pub fn other_side(which: Which) -> Which
    ensures { result ≡ other which }
{
    match which {
        Which::One => Which::Two,
        Which::Two => Which::One,
    }
}

// ---- modes

// B1 B0: bits 3-2 of side 1's Control 0.
fn b_of(control: Control) -> u8
    ensures { result ≡ b_of control }
{
    (control.one.control0 & Control0::B) >> 2
}

#[tactic(auto, unfolding(machine::specs::Modes::bus_of))]
pub fn bus_of(control: Control, which: Which) -> Bus
    ensures { result ≡ bus_of control which }
{
    let row = side::mode(control.pins, b_of(control));
    match which {
        Which::One => row.one,
        Which::Two => row.two,
    }
}

pub fn is_z_bus(bus: Bus) -> bool
    ensures { result ≡ is_z_bus bus }
{
    matches!(bus, Bus::Low | Bus::High)
}

pub fn is_non_z_bus(bus: Bus) -> bool
    ensures { result ≡ is_non_z_bus bus }
{
    matches!(bus, Bus::NonZBus)
}

#[tactic(auto, using(bits::proofs::Laws::masks), unfolding(machine::specs::Modes::connected))]
pub fn is_connected(control: Control, which: Which) -> bool
    ensures { result ≡ connected control which }
{
    let opened = (control.control2 & Control2::ENABLE_PORT_2 != 0) & (b_of(control) < 2);
    (control.pins <= 2) & (is_one(which) | opened)
}

// Its Reset bit is 1.
#[tactic(auto, using(bits::proofs::Laws::masks), unfolding(machine::specs::Modes::in_reset))]
pub fn is_in_reset(control: Control, which: Which) -> bool
    ensures { result ≡ in_reset control which }
{
    let s = side_of(control, which);
    s.control0 & Control0::RESET != 0
}

#[tactic(auto, unfolding(machine::specs::Modes::live))]
pub fn is_live(control: Control, which: Which) -> bool
    ensures { result ≡ live control which }
{
    is_connected(control, which) & !is_in_reset(control, which)
}

// ---- events

// The side with these events: they set IP if it is live. Whatever raises an event does it here.
#[tactic(auto, unfolding(machine::specs::Events::raised_ip))]
pub fn raise(control: Control, which: Which, sources: u8) -> Side
    ensures { result ≡ raised control which sources }
{
    let s = side_of(control, which);
    let live = is_live(control, which);
    Side {
        ip: bits::choose(live, s.ip | sources, s.ip),
        ..s
    }
}

// ---- the FIFO

#[tactic(auto, using(bits::proofs::Laws::masks), unfolding(machine::specs::Fifo::writer))]
pub fn is_writer(control: Control, which: Which) -> bool
    ensures { result ≡ writer control which }
{
    is_named(which, control.control3 & Control3::DIRECTION != 0)
}

// CLEAR is 1.
#[tactic(auto, using(bits::proofs::Laws::masks), unfolding(machine::specs::Fifo::clear))]
pub fn is_clear_1(control: Control) -> bool
    ensures { result ≡ clear control }
{
    control.control3 & Control3::CLEAR != 0
}

// A side's way ends at this count.
#[tactic(auto, unfolding(machine::specs::Fifo::at_end))]
fn is_at_end(control: Control, which: Which, count: u8) -> bool
    ensures { result ≡ at_end control which count }
{
    if is_writer(control, which) {
        return count == machine::PLACES;
    }
    count == 0
}

#[tactic(auto, unfolding(machine::specs::Fifo::accepted))]
pub fn accepts_byte(control: Control, which: Which) -> bool
    ensures { result ≡ accepted control which }
{
    is_live(control, which)
        & is_writer(control, which)
        & is_clear_1(control)
        & (control.count < machine::PLACES)
}

#[tactic(auto, unfolding(machine::specs::Fifo::given))]
pub fn gives_byte(control: Control, which: Which) -> bool
    ensures { result ≡ given control which }
{
    is_live(control, which) & !is_writer(control, which) & is_clear_1(control) & (control.count > 0)
}

// The writer's write, or the reader's read, of the Data Buffer would wait.
#[tactic(auto, using(bits::proofs::Laws::masks), unfolding(machine::specs::Fifo::waits))]
pub fn would_wait(control: Control, which: Which) -> bool
    ensures { result ≡ waits control which }
{
    let s = side_of(control, which);
    let enabled = s.control1 & Control1::LINE_ENABLE != 0;
    let requests = s.control1 & Control1::REQUEST != 0;
    is_live(control, which)
        & enabled
        & !requests
        & is_clear_1(control)
        & is_at_end(control, which, control.count)
}

// ---- the run flag and REQUEST

// The run flag after a moved byte that leaves this count.
#[tactic(auto, unfolding(machine::specs::Request::run_after))]
pub fn run_after(control: Control, which: Which, count: u8) -> bool
    ensures { result ≡ run_after control which count }
{
    let s = side_of(control, which);
    if is_at_end(control, which, count) {
        return false;
    }
    (count == s.compare) | s.run
}

// The run flag set afresh.
#[tactic(auto, unfolding(machine::specs::Request::afresh))]
pub fn run_afresh(control: Control, which: Which) -> bool
    ensures { result ≡ afresh control which }
{
    let s = side_of(control, which);
    if is_writer(control, which) {
        return control.count < machine::PLACES;
    }
    (control.count > 0) & (control.count == s.compare)
}

// Stop on match, with the pattern IP set.
#[tactic(auto, using(bits::proofs::Laws::masks), unfolding(machine::specs::Request::stopped))]
fn is_stopped(s: Side) -> bool
    ensures { result ≡ stopped s }
{
    (s.control1 & Control1::STOP_ON_MATCH != 0) & (s.ip & Source::PATTERN != 0)
}

#[tactic(auto, using(bits::proofs::Laws::masks), unfolding(machine::specs::Request::going))]
fn is_going(control: Control, which: Which) -> bool
    ensures { result ≡ going control which }
{
    let s = side_of(control, which);
    if s.control1 & Control1::START_ON_COUNT != 0 {
        return s.run;
    }
    if is_writer(control, which) {
        return control.count < machine::PLACES;
    }
    control.count > 0
}

// The lines are asked for at every step: what decides soonest is asked first, here and of INT.
#[tactic(auto, using(bits::proofs::Laws::masks), unfolding(machine::specs::Request::request))]
pub fn requests(control: Control, which: Which) -> bool
    ensures { result ≡ request control which }
{
    let s = side_of(control, which);
    let enabled = s.control1 & Control1::LINE_ENABLE != 0;
    let request_mode = s.control1 & Control1::REQUEST != 0;
    if enabled & request_mode {
        if is_stopped(s) {
            return false;
        }
        if is_going(control, which) {
            return is_live(control, which) & is_clear_1(control);
        }
    }
    false
}

// ---- INT and the lines

// A side's bus is Z-BUS High, by the rows of Table 2 that have it.
fn is_on_high(control: Control, which: Which) -> bool
    ensures { result ≡ is_high (bus_of control which) }
{
    (control.pins == 1) & (is_one(which) | (b_of(control) == 0))
}

#[tactic(auto, using(bits::proofs::Laws::masks, side::proofs::Laws::any_highest), unfolding(machine::specs::Interrupts::interrupt, machine::specs::Interrupts::mie))]
pub fn interrupts(control: Control, which: Which) -> bool
    ensures { result ≡ interrupt control which }
{
    let s = side_of(control, which);
    if s.control0 & Control0::MIE == 0 {
        return false;
    }
    if side::due_source(s) == 0 {
        return false;
    }
    is_live(control, which) & !is_on_high(control, which)
}

// Bit 0 INT 1, 1 REQUEST 1, 2 INT 2, 3 REQUEST 2.
#[tactic(auto, unfolding(machine::specs::History::lines))]
pub fn lines_of(control: Control) -> u8
    ensures { result ≡ lines control }
{
    let int1 = interrupts(control, Which::One);
    let request1 = requests(control, Which::One);
    let int2 = interrupts(control, Which::Two);
    let request2 = requests(control, Which::Two);
    bits::choose(int1, 1, 0)
        | (bits::choose(request1, 2, 0) | (bits::choose(int2, 4, 0) | bits::choose(request2, 8, 0)))
}

// ---- validity

#[tactic(auto, using(crate::proofs::Laws::zero1, crate::proofs::Laws::no_source_lem), unfolding(machine::specs::Validity::zero_side))]
fn is_zero_side(s: Side) -> bool
    ensures { result ≡ zero_side s }
{
    (s.control1 & Control1::ZERO == 0)
        & (s.ip & Source::NONE == 0)
        & (s.ie & Source::NONE == 0)
        & (s.ius & Source::NONE == 0)
}

#[tactic(auto, using(crate::proofs::Laws::zero_b, crate::proofs::Laws::zero2, crate::proofs::Laws::zero3), unfolding(machine::specs::Validity::zero_shared))]
fn is_zero_shared(control: Control) -> bool
    ensures { result ≡ zero_shared control }
{
    (control.two.control0 & Control0::B == 0)
        & (control.control2 & Control2::ZERO == 0)
        & (control.control3 & Control3::ZERO == 0)
}

// No Reset bit 1 beside another bit of that Control 0.
#[tactic(auto, using(bits::proofs::Laws::masks), unfolding(machine::specs::Validity::alone_in_reset))]
fn is_alone_in_reset(s: Side) -> bool
    ensures { result ≡ alone_in_reset s }
{
    !(s.control0 & Control0::RESET != 0) | (s.control0 == Control0::RESET)
}

#[tactic(auto, unfolding(machine::specs::Validity::valid_side))]
fn is_valid_side(s: Side) -> bool
    ensures { result ≡ valid_side s }
{
    (s.frozen <= machine::PLACES) & (s.pointer <= 15) & is_zero_side(s) & is_alone_in_reset(s)
}

#[tactic(auto, unfolding(machine::specs::Validity::run_fits))]
fn run_fits(control: Control, which: Which) -> bool
    ensures { result ≡ run_fits control which }
{
    let s = side_of(control, which);
    !(s.run & is_at_end(control, which, control.count))
}

#[tactic(auto, using(bits::proofs::Laws::masks), unfolding(machine::specs::Validity::reset_fits))]
fn reset_fits(control: Control) -> bool
    ensures { result ≡ reset_fits control }
{
    let one = control.one.control0 & Control0::RESET != 0;
    let two = control.two.control0 & Control0::RESET != 0;
    !one | (two & (control.control2 == 0))
}

#[tactic(auto, unfolding(machine::specs::Validity::in_range))]
fn is_in_range(control: Control) -> bool
    ensures { result ≡ in_range control }
{
    (control.start <= 127) & (control.count <= machine::PLACES) & (control.pins <= 2)
}

#[tactic(auto, unfolding(machine::specs::Validity::clear_fits))]
fn clear_fits(control: Control) -> bool
    ensures { result ≡ clear_fits control }
{
    is_clear_1(control) | (control.count == 0)
}

// Refusal 1 is given exactly if this is false.
#[tactic(auto, unfolding(machine::specs::Validity::valid))]
pub fn is_valid(control: Control) -> bool
    ensures { result ≡ valid control }
{
    is_in_range(control)
        & is_valid_side(control.one)
        & is_valid_side(control.two)
        & is_zero_shared(control)
        & clear_fits(control)
        & run_fits(control, Which::One)
        & run_fits(control, Which::Two)
        & reset_fits(control)
}
