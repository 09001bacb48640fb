// Reads frames from standard input to its end and prints a line for each: reading, feeding and writing, and nothing else.
#![tactic(auto)]

ghost use Rattle.std.specs.Prelude.{◌≡◌, ◌≤◌, length};
ghost use Rattle.session.specs.Feed.{state_of};
ghost use Rattle.session.specs.Turns.{unused};
ghost use Rattle.fiobench.specs.Writes.{took};
ghost use Rattle.fiobench.specs.Runs.{gave, Passes, Turn, Turns, closed_by};

use session::Session;
use std::fmt::Display;
use std::io::{ErrorKind, Read};

// The most that is read at once, and the room for answers. Those to 65536 bytes of frames fit, since a frame has 7 with its LF
// and an answer 9. An LF alone is a line too: where more answers are asked for than fit, the output is filled and written
// several times.
const INPUT: usize = 65536;

const OUTPUT: usize = 98304;

// A read or a write failed, and nothing may be printed any more.
#[derive(Clone, Copy)]
struct Failed;

// How the reading went: there may be more to read, or the input came to its end.
#[derive(Clone, Copy)]
enum Went {
    On,
    Ended,
}

// What one read gave and how it went with that: `Turn` (specs/Runs) says the one by the other.
#[derive(Clone, Copy)]
struct Turned {
    got: Result<Option<usize>, Failed>,
    went: Result<Went, Failed>,
}

// How the reading went and after how many turns, which `Turns` counts.
#[derive(Clone, Copy)]
struct Ran {
    went: Result<Went, Failed>,
    turns: u64,
}

// Says a failure on standard error.
fn fail(rt: &impl Eprint, what: &str, why: impl Display + Drop) -> Failed {
    let _ = eprintln!(rt; "{what}: {why}");
    Failed
}

// Writes once, of a part that isn't empty: how many bytes it took, none where a signal came first. To take nothing otherwise is a failure.
fn write_some(rt: &(impl Print + Eprint), part: &[u8]) -> Result<usize, Failed>
    ensures { took result ≤ length part.now }
{
    match rt.write_some(part) {
        Ok(0) => Err(fail(rt, "write", "nothing was taken")),
        Ok(n) => Ok(n),
        Err(e) if e.kind() == ErrorKind::Interrupted => Ok(0),
        Err(e) => Err(fail(rt, "write", e)),
    }
}

// Writes all of out, and goes on after a short write and after a signal. std's `write_all` has other words where nothing is taken, and stands fewer signals.
fn write_out(rt: &(impl Print + Eprint), out: &[u8]) -> Result<(), Failed> {
    let mut rest = out;
    // A loop must be shown to end, and a signal may come at each try.
    for _ in 0..u64::MAX {
        if rest.is_empty() {
            break;
        }
        let n = write_some(rt, rest)?;
        rest = &rest[n..];
    }
    if rest.is_empty() { Ok(()) } else { Err(Failed) }
}

// Reads once, to the start of the input: how many bytes it gave, none at the end of the input, or that a signal came first.
fn read_some(
    rt: &impl Eprint,
    stdin: &mut impl Read,
    input: &mut [u8],
) -> Result<Option<usize>, Failed>
    ensures { gave result ≤ length input.new }
{
    match stdin.read(input) {
        Ok(n) => Ok(Some(n)),
        Err(e) if e.kind() == ErrorKind::Interrupted => Ok(None),
        Err(e) => Err(fail(rt, "read", e)),
    }
}

// The session, with what is lent to it: its chip's buffer, and the room for answers.
#[derive(Drop)]
struct Replay<'a> {
    session: Session,
    buffer: &'a mut [u8; 128],
    output: &'a mut [u8],
    ghost room: { 9 ≤ length output.now },
}

impl<'a> Replay<'a> {
    ghost use Rattle.fiobench.specs.Lent.{state_in};

    // A session before its first line.
    fn start(buffer: &'a mut [u8; 128], output: &'a mut [u8; OUTPUT]) -> Replay<'a>
        ensures { state_in result ≡ state_of unused buffer.old }
    {
        Replay {
            session: session::start(),
            buffer,
            output,
        }
    }

    // Feeds a piece, and writes its answers as often as the output fills: all of it is taken, or a write failed.
    fn pass(&mut self, rt: &(impl Print + Eprint), piece: &[u8]) -> Result<(), Failed>
        ensures { Passes (state_in self.old) piece.now result (state_in self.new) }
    {
        let mut rest = piece;
        while !rest.is_empty() {
            let r = session::feed(self.session, self.buffer, rest, self.output);
            self.session = r.session;
            write_out(rt, &self.output[..r.written])?;
            rest = &rest[r.used..];
        }
        Ok(())
    }

    // Reads once, and answers the lines that ended.
    #[tactic(auto, unfolding(crate::specs::Runs::Turn, crate::specs::Runs::Passes))]
    fn turn(
        &mut self,
        rt: &(impl Print + Eprint),
        stdin: &mut impl Read,
        input: &mut [u8],
    ) -> Turned
        ensures { Turn (state_in self.old) result.got input.new result.went (state_in self.new) }
    {
        let got = read_some(rt, stdin, input);
        let went = match got {
            Ok(Some(0)) => Ok(Went::Ended),
            Ok(Some(n)) => self.pass(rt, &input[..n]).map(|()| Went::On),
            Ok(None) => Ok(Went::On),
            Err(e) => Err(e),
        };
        Turned { got, went }
    }

    // Reads to the end of the input, or until a turn fails.
    fn run(&mut self, rt: &(impl Print + Eprint), stdin: &mut impl Read) -> Ran
        ensures turns { Turns result.turns (state_in self.old) result.went (state_in self.new) }
        ensures went { result.went ≡ Ok Went.On → result.turns ≡ 18446744073709551615 }
    {
        let mut input = [0u8; INPUT];
        // A loop must be shown to end, and nothing says that the input does; a signal may come at each try.
        for turns in 0..u64::MAX {
            match self.turn(rt, stdin, &mut input).went {
                Ok(Went::On) => {}
                went => return Ran {
                    went,
                    turns: turns + 1,
                },
            }
        }
        Ran {
            went: Ok(Went::On),
            turns: u64::MAX,
        }
    }

    // A whole input, read from a session before its first line.
    fn read_all(
        rt: &(impl Print + Eprint),
        stdin: &mut impl Read,
        buffer: &'a mut [u8; 128],
        output: &'a mut [u8; OUTPUT],
    ) -> (Replay<'a>, Ran)
        ensures turns { Turns result.1.turns (state_of unused buffer.old) result.1.went (state_in result.0) }
        ensures went { result.1.went ≡ Ok Went.On → result.1.turns ≡ 18446744073709551615 }
    {
        let mut replay = Replay::start(buffer, output);
        let ran = replay.run(rt, stdin);
        (replay, ran)
    }

    // A last line without LF is answered too, where the input came to its end; one that is cut off by anything else is not.
    fn end(&mut self, rt: &(impl Print + Eprint), went: Result<Went, Failed>)
        ensures { state_in self.new ≡ closed_by went (state_in self.old) }
    {
        if let Ok(Went::Ended) = went {
            let r = session::finish(self.session, self.buffer, self.output);
            self.session = r.session;
            let _ = write_out(rt, &self.output[..r.written]);
        }
    }
}

fn main(rt: HostRuntime) {
    let mut buffer = [0u8; 128];
    let mut output = [0u8; OUTPUT];
    let (mut replay, ran) = Replay::read_all(&rt, &mut rt.stdin(), &mut buffer, &mut output);
    replay.end(&rt, ran.went);
}
