// The library for a host in C or Rust that only feeds: what `feeding` offers, exported. Where nothing else calls a step, the compiler
// makes one function of a line, as it does in fiobench.
#![tactic(auto)]

ghost use Rattle.std.specs.Prelude.{◌≡◌, ◌≤◌, length};
ghost use Rattle.session.specs.Turns.{unused};
ghost use Rattle.host.specs.Records.{session_shown};
ghost use Rattle.host.specs.Calls.{host_fed, host_finished, host_output, host_buffer, host_last_output, host_last_buffer};

use host::{HostFed, HostSession};

// A session before its first line.
#[unsafe(no_mangle)]
pub extern "C" fn fio_session_start() -> HostSession
    ensures { result ≡ session_shown unused }
{
    feeding::fio_session_start()
}

// Takes input while there is room for an answer.
#[unsafe(no_mangle)]
pub extern "C" fn fio_session_feed(
    session: HostSession,
    buffer: &mut [u8; 128],
    input: &[u8],
    output: &mut [u8],
) -> HostFed
    ensures result { result ≡ host_fed session buffer.old input.now output.old }
    ensures output { output.new ≡ host_output session buffer.old input.now output.old }
    ensures buffer { buffer.new ≡ host_buffer session buffer.old input.now output.old }
    ensures within { (result.used ≤ length input.now) × (result.written ≤ length output.old) }
{
    feeding::fio_session_feed(session, buffer, input, output)
}

// Answers a last line that has no LF.
#[unsafe(no_mangle)]
pub extern "C" fn fio_session_finish(
    session: HostSession,
    buffer: &mut [u8; 128],
    output: &mut [u8],
) -> HostFed
    ensures result { result ≡ host_finished session buffer.old output.old }
    ensures output { output.new ≡ host_last_output session buffer.old output.old }
    ensures buffer { buffer.new ≡ host_last_buffer session buffer.old output.old }
    ensures within { result.written ≤ length output.old }
{
    feeding::fio_session_finish(session, buffer, output)
}
