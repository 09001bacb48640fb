// The library for hosts in C and Rust: what `host` offers, exported. host/fio.h says of each function what it gives back.
#![tactic(auto)]

ghost use Rattle.std.specs.Prelude.{◌≡◌, ◌≤◌, length};
ghost use Rattle.machine.specs.History.{lines};
ghost use Rattle.line.specs.Frames.{meaning, reading};
ghost use Rattle.session.specs.Turns.{unused};
ghost use Rattle.dma.specs.declared.Way.TheVariants.{In, Out};
ghost use Rattle.host.specs.Records.{session_shown};
ghost use Rattle.host.specs.Calls.{LeavesCall, fault_shown, framed, begun, looked};
ghost use Rattle.host.specs.Calls.{host_fed, host_finished, host_output, host_buffer, host_last_output, host_last_buffer};
ghost use Rattle.host.specs.Bursts.{LeavesBurstCall, host_burst};

use host::{HostAnswer, HostBurst, HostControl, HostFault, HostFed, HostSession, HostStepped};

// ---- a start and a step

// A new chip, its record and its 128 bytes.
#[unsafe(no_mangle)]
pub extern "C" fn fio_start(pins: u8, buffer: &mut [u8; 128]) -> HostStepped
    ensures { LeavesCall (begun pins buffer.old) result buffer.new }
{
    host::fio_start(pins, buffer)
}

// A frame's three bytes.
#[unsafe(no_mangle)]
pub extern "C" fn fio_step(
    control: HostControl,
    buffer: &mut [u8; 128],
    kind: u8,
    address: u8,
    byte: u8,
) -> HostStepped
    ensures { LeavesCall (framed control buffer.old (meaning kind address byte)) result buffer.new }
{
    host::fio_step(control, buffer, kind, address, byte)
}

// ---- a line

// What is wrong with a line, without its LF.
#[unsafe(no_mangle)]
pub extern "C" fn fio_line_fault(line: &[u8]) -> HostFault
    ensures { result ≡ fault_shown (reading line.now) }
{
    host::fio_line_fault(line)
}

// ---- a look

#[unsafe(no_mangle)]
pub extern "C" fn fio_lines(control: HostControl) -> HostAnswer
    ensures { result ≡ looked lines control }
{
    host::fio_lines(control)
}

#[unsafe(no_mangle)]
pub extern "C" fn fio_count(control: HostControl) -> HostAnswer
    ensures { result ≡ looked (λ c. c.count) control }
{
    host::fio_count(control)
}

// ---- a burst

// From memory to the FIFO, by side 1 or 2.
#[unsafe(no_mangle)]
pub extern "C" fn fio_burst_in(
    control: HostControl,
    buffer: &mut [u8; 128],
    side: u8,
    memory: &[u8],
) -> HostBurst
    ensures { LeavesBurstCall (host_burst In control buffer.old side memory.now) result buffer.new }
{
    host::fio_burst_in(control, buffer, side, memory)
}

// From the FIFO to memory, by side 1 or 2. Behind the bytes moved it keeps its content.
#[unsafe(no_mangle)]
pub extern "C" fn fio_burst_out(
    control: HostControl,
    buffer: &mut [u8; 128],
    side: u8,
    memory: &mut [u8],
) -> HostBurst
    ensures burst { LeavesBurstCall (host_burst Out control buffer.old side memory.old) result buffer.new }
    ensures memory { memory.new ≡ (host_burst Out control buffer.old side memory.old).memory }
{
    host::fio_burst_out(control, buffer, side, memory)
}

// ---- a session

// A session before its first line.
#[unsafe(no_mangle)]
pub extern "C" fn fio_session_start() -> HostSession
    ensures { result ≡ session_shown unused }
{
    host::fio_session_start()
}

// Takes input while there is room for an answer.
#[unsafe(no_mangle)]
pub extern "C" fn fio_session_feed(
    session: HostSession,
    buffer: &mut [u8; 128],
    input: &[u8],
    output: &mut [u8],
) -> HostFed
    ensures result { result ≡ host_fed session buffer.old input.now output.old }
    ensures output { output.new ≡ host_output session buffer.old input.now output.old }
    ensures buffer { buffer.new ≡ host_buffer session buffer.old input.now output.old }
    ensures within { (result.used ≤ length input.now) × (result.written ≤ length output.old) }
{
    host::fio_session_feed(session, buffer, input, output)
}

// Answers a last line that has no LF.
#[unsafe(no_mangle)]
pub extern "C" fn fio_session_finish(
    session: HostSession,
    buffer: &mut [u8; 128],
    output: &mut [u8],
) -> HostFed
    ensures result { result ≡ host_finished session buffer.old output.old }
    ensures output { output.new ≡ host_last_output session buffer.old output.old }
    ensures buffer { buffer.new ≡ host_last_buffer session buffer.old output.old }
    ensures within { result.written ≤ length output.old }
{
    host::fio_session_finish(session, buffer, output)
}
