// What a step asks for, once its address is read.
// A Control and a side are two arguments, as in `control`.
#![tactic(auto)]

ghost use Rattle.std.specs.Prelude.{◌≡◌};
ghost use Rattle.machine.specs.Addresses.{behind_cd, target_on, target, aims, closes};
ghost use Rattle.machine.specs.Step.{writing, reading, goes_in, by_dma, action, carries, side_in};

use machine::{Action, Bus, Control, Control0, Refusal, Register, Side, Step, Which};

// What C/D names on a Non-Z-BUS side.
#[tactic(auto, unfolding(machine::specs::Addresses::behind_cd))]
fn behind_cd(s: Side, address: u8) -> Option<Register>
    ensures { result ≡ behind_cd s address }
{
    match address {
        0 => Some(Register {
            number: Register::DATA_BUFFER,
        }),
        1 => Some(Register::of_pointer(s.pointer)),
        _ => None,
    }
}

#[tactic(auto, unfolding(machine::specs::Addresses::target_on))]
fn target_on(bus: Bus, s: Side, address: u8) -> Option<Register>
    ensures { result ≡ target_on bus s address }
{
    match bus {
        Bus::Low => Some(Register::of_low(s.control0 & Control0::RJA != 0, address)),
        Bus::High if address <= 15 => Some(Register::of_high(address)),
        Bus::NonZBus => behind_cd(s, address),
        Bus::High | Bus::ThreeWire | Bus::TwoWire | Bus::NoBus => None,
    }
}

// A write and a read stay two functions: each builds two actions of its own, and one function of both would be told all four.
fn write_to(side: Which, x: u8, target: Option<Register>) -> Action
    ensures { result ≡ writing side x target }
{
    match target {
        Some(r) if r.number == Register::DATA_BUFFER => Action::Offer { dma: false, side },
        Some(register) => Action::Store {
            side,
            register,
            data: x,
        },
        None => Action::Refuse(Refusal::NoRegister as u8),
    }
}

fn read_from(side: Which, target: Option<Register>) -> Action
    ensures { result ≡ reading side target }
{
    match target {
        Some(r) if r.number == Register::DATA_BUFFER => Action::Take { dma: false, side },
        Some(register) => Action::Load { side, register },
        None => Action::Refuse(Refusal::NoRegister as u8),
    }
}

// DMA on a Z-BUS side follows the direction, on a Non-Z-BUS side the step's own way.
#[tactic(auto, unfolding(machine::specs::Step::goes_in))]
fn goes_in(control: Control, which: Which, own: bool) -> bool
    ensures { result ≡ goes_in control which own }
{
    let bus = control::bus_of(control, which);
    if control::is_z_bus(bus) {
        return control::is_writer(control, which);
    }
    own
}

#[tactic(auto, unfolding(machine::specs::Step::by_dma))]
fn by_dma(control: Control, side: Which, own: bool) -> Action
    ensures { result ≡ by_dma control side own }
{
    if !control::is_live(control, side) {
        return Action::Float;
    }
    if goes_in(control, side, own) {
        return Action::Offer { dma: true, side };
    }
    Action::Take { dma: true, side }
}

// A write at C/D 1 of a Non-Z-BUS side in State 0 is to the pointer.
#[tactic(auto, unfolding(machine::specs::Step::action, machine::specs::Addresses::target, machine::specs::Addresses::aims, bits::specs::Bits::field))]
fn write_action(control: Control, side: Which, address: u8, x: u8) -> Action
    ensures { result ≡ action control (Step.Write side address x) }
{
    if !control::is_connected(control, side) {
        return Action::Float;
    }
    let bus = control::bus_of(control, side);
    let s = control::side_of(control, side);
    if control::is_non_z_bus(bus) & (address == 1) & !s.state1 {
        return Action::Aim {
            side,
            pointer: x % 16,
        };
    }
    write_to(side, x, target_on(bus, s, address))
}

#[tactic(auto, unfolding(machine::specs::Step::action, machine::specs::Addresses::target))]
fn read_action(control: Control, side: Which, address: u8) -> Action
    ensures { result ≡ action control (Step.Read side address) }
{
    if !control::is_connected(control, side) {
        return Action::Float;
    }
    let bus = control::bus_of(control, side);
    let s = control::side_of(control, side);
    read_from(side, target_on(bus, s, address))
}

#[tactic(auto, unfolding(machine::specs::Step::action))]
pub fn action_of(control: Control, s: Step) -> Action
    ensures { result ≡ action control s }
{
    match s {
        Step::Write {
            side,
            address,
            data,
        } => write_action(control, side, address, data),
        Step::Read { side, address } => read_action(control, side, address),
        Step::DmaWrite { side, .. } => by_dma(control, side, true),
        Step::DmaRead { side } => by_dma(control, side, false),
        Step::Acknowledge { side } if control::interrupts(control, side) => Action::Grant { side },
        Step::Reset { side } if control::is_connected(control, side) => Action::Renew { side },
        Step::Acknowledge { .. } | Step::Reset { .. } => Action::Float,
    }
}

// The byte that a step carries.
pub fn byte_in(s: Step) -> u8
    ensures { result ≡ carries s }
{
    match s {
        Step::Write { data, .. } | Step::DmaWrite { data, .. } => data,
        _ => 0,
    }
}

pub fn side_in(s: Step) -> Which
    ensures { result ≡ side_in s }
{
    match s {
        Step::Write { side, .. }
        | Step::Read { side, .. }
        | Step::DmaWrite { side, .. }
        | Step::DmaRead { side }
        | Step::Acknowledge { side }
        | Step::Reset { side } => side,
    }
}

// A write at C/D 1 of a connected Non-Z-BUS side in State 1.
#[tactic(auto, unfolding(machine::specs::Addresses::closes))]
fn closes_write(control: Control, which: Which, address: u8) -> bool
    ensures { result ≡ closes control (Step.Write which address 0) }
{
    control::side_of(control, which).state1
        && control::is_connected(control, which)
        && control::is_non_z_bus(control::bus_of(control, which))
        && address == 1
}

#[tactic(auto, unfolding(machine::specs::Addresses::closes))]
pub fn closes_step(control: Control, s: Step) -> bool
    ensures { result ≡ closes control s }
{
    match s {
        Step::Write { side, address, .. } => closes_write(control, side, address),
        _ => false,
    }
}
