// The sessions of the library for hosts as a library of their own, for a host that only feeds. `feeding_c` exports them.
#![tactic(auto)]

ghost use Rattle.std.specs.Prelude.{◌≡◌, ◌≤◌, length};
ghost use Rattle.session.specs.Turns.{unused};
ghost use Rattle.host.specs.Records.{session_shown};
ghost use Rattle.host.specs.Calls.{host_fed, host_finished, host_output, host_buffer, host_last_output, host_last_buffer};

use host::{HostFed, HostSession};

// A session before its first line.
pub fn fio_session_start() -> HostSession
    ensures { result ≡ session_shown unused }
{
    host::fio_session_start()
}

// Takes input while there is room for an answer.
pub fn fio_session_feed(
    session: HostSession,
    buffer: &mut [u8; 128],
    input: &[u8],
    output: &mut [u8],
) -> HostFed
    ensures result { result ≡ host_fed session buffer.old input.now output.old }
    ensures output { output.new ≡ host_output session buffer.old input.now output.old }
    ensures buffer { buffer.new ≡ host_buffer session buffer.old input.now output.old }
    ensures within { (result.used ≤ length input.now) × (result.written ≤ length output.old) }
{
    host::fio_session_feed(session, buffer, input, output)
}

// Answers a last line that has no LF.
pub fn fio_session_finish(
    session: HostSession,
    buffer: &mut [u8; 128],
    output: &mut [u8],
) -> HostFed
    ensures result { result ≡ host_finished session buffer.old output.old }
    ensures output { output.new ≡ host_last_output session buffer.old output.old }
    ensures buffer { buffer.new ≡ host_last_buffer session buffer.old output.old }
    ensures within { result.written ≤ length output.old }
{
    host::fio_session_finish(session, buffer, output)
}
