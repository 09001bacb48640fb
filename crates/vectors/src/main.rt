// Replays each session of data/ through the library, and says how many of its lines are what they must be and which is the first that isn't.
//
// Where what they must be comes from: `document-01` is the session that document 01 prints. `lines` was written by hand, line by line, from
// the rules of a line and a session (docs/LINES.md), and so were `capture`, `masked` and `careless` (docs/MASKING.md). The others come from two
// models of document 01 with request T-02, written apart from each other and from this project, that agree; `faults` has lines of every fault.
#![tactic(auto)]

ghost use Rattle.io.specs.Counts.{IsPrefixLen};

use session::REPORT;
use std::io;
use std::rt::Files;
use text::Lines;

// How many bytes of input and of output a call is lent: few, so that lines are cut everywhere.
const PIECE: usize = 61;

const LENT: usize = 23;

// The sessions: the name of each, its input, and what it must print. The paths are written out: to join them takes an allocator.
const SESSIONS: [(&str, &str, &str); 15] = [
    ("document-01", "document-01.in", "document-01.out"),
    ("lines", "lines.in", "lines.out"),
    ("capture", "capture.in", "capture.out"),
    ("masked", "masked.in", "masked.out"),
    ("careless", "careless.in", "careless.out"),
    ("readings", "readings.in", "readings.out"),
    ("mixed-1", "mixed-1.in", "mixed-1.out"),
    ("mixed-2", "mixed-2.in", "mixed-2.out"),
    ("mixed-3", "mixed-3.in", "mixed-3.out"),
    ("mixed-4", "mixed-4.in", "mixed-4.out"),
    ("mixed-5", "mixed-5.in", "mixed-5.out"),
    ("mixed-6", "mixed-6.in", "mixed-6.out"),
    ("mixed-7", "mixed-7.in", "mixed-7.out"),
    ("mixed-8", "mixed-8.in", "mixed-8.out"),
    ("faults", "faults.in", "faults.out"),
];

// ---- replaying

// Replays an input, in small pieces and with small outputs: how many bytes of answers stand at the start of came.
fn replay(input: &[u8], came: &mut [u8]) -> usize
    ensures { IsPrefixLen result came.new }
{
    let mut buffer = [0u8; 128];
    let mut s = session::start();
    let mut rest = input;
    let mut done: usize = 0;
    while !rest.is_empty() && came.len() - done >= REPORT {
        let piece = &rest[..rest.len().min(PIECE)];
        let end = came.len().min(done + LENT);
        let r = session::feed(s, &mut buffer, piece, &mut came[done..end]);
        s = r.session;
        rest = &rest[r.used..];
        done += r.written;
    }
    let f = session::finish(s, &mut buffer, &mut came[done..]);
    done + f.written
}

// ---- comparing

// The first line that differs, by its number, with what each text has there.
#[derive(Clone, Copy)]
struct Difference<'a> {
    line: usize,
    came: Option<&'a [u8]>,
    wanted: Option<&'a [u8]>,
}

// How many lines each of two texts has, how many are the same in both, and the first that differs.
#[derive(Clone, Copy)]
struct Tally<'a> {
    came: usize,
    wanted: usize,
    same: usize,
    first: Option<Difference<'a>>,
}

// Line by line, to the end of the longer text: a line that the other lacks differs.
fn compare<'a>(came: &'a [u8], wanted: &'a [u8]) -> Tally<'a> {
    let mut tally = Tally {
        came: 0,
        wanted: 0,
        same: 0,
        first: None,
    };
    let mut wanted_lines = Lines::new(wanted);
    for line in Lines::new(came) {
        tally.add(Some(line), wanted_lines.next());
    }
    for line in wanted_lines {
        tally.add(None, Some(line));
    }
    tally
}

impl<'a> Tally<'a> {
    // One line of each text, or of the longer one alone.
    fn add(&mut self, came: Option<&'a [u8]>, wanted: Option<&'a [u8]>) {
        let line = self.came.max(self.wanted).saturating_add(1);
        if came.is_some() {
            self.came = line;
        }
        if wanted.is_some() {
            self.wanted = line;
        }
        if came == wanted {
            self.same = self.same.saturating_add(1);
        } else if self.first.is_none() {
            self.first = Some(Difference { line, came, wanted });
        }
    }
}

// ---- telling

// A line without its LF, or that it has none, or that there is no line.
fn tell_line(rt: &impl Print, line: Option<&[u8]>) -> io::Result<()> {
    match line {
        Some([before @ .., text::LF]) => rt.write_all(before),
        Some(line) => {
            rt.write_all(line)?;
            print!(rt; " without LF")
        }
        None => print!(rt; "nothing"),
    }
}

// The first line that differs, if any does.
fn tell_difference(rt: &impl Print, first: Option<Difference<'_>>) -> io::Result<()> {
    let Some(d) = first else {
        return Ok(());
    };
    print!(rt; "; the first that differs is line {}: ", d.line)?;
    tell_line(rt, d.wanted)?;
    print!(rt; " was expected, ")?;
    tell_line(rt, d.came)?;
    print!(rt; " came")
}

fn tell_tally(rt: &impl Print, name: &str, tally: Tally<'_>) -> io::Result<()> {
    let Tally {
        came,
        wanted,
        same,
        first,
    } = tally;
    print!(rt; "{name}: {same} of {wanted} lines agree")?;
    if came != wanted {
        print!(rt; ", {came} came")?;
    }
    tell_difference(rt, first)?;
    println!(rt)
}

// The session of a name: its input, and what it must print.
fn judge(
    rt: &(impl Files + Print + Eprint),
    name: &str,
    input_path: &str,
    wanted_path: &str,
) -> io::Result<()> {
    // A file that is longer than its array is cut.
    let mut input = [0u8; 65536];
    let mut wanted = [0u8; 65536];
    let mut came = [0u8; 65536];
    let n = text::read_file(rt, input_path.as_bytes(), &mut input);
    let m = text::read_file(rt, wanted_path.as_bytes(), &mut wanted);
    let k = replay(&input[..n], &mut came);
    tell_tally(rt, name, compare(&came[..k], &wanted[..m]))
}

fn main(rt: HostRuntime) -> io::Result<()> {
    for (name, input, wanted) in SESSIONS {
        judge(&rt, name, input, wanted)?;
    }
    Ok(())
}
