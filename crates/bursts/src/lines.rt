// The lines of data/cases. One that begins with a blank is a script, with # a remark. Others are printed.
use crate::play::play;
use std::io;
use std::rt::Files;
use text::Lines;

fn take_line(rt: &impl Print, line: &[u8]) -> io::Result<()> {
    match line {
        [b' ', script @ ..] => play(rt, script),
        [b'#', ..] => Ok(()),
        _ => rt.write_all(line),
    }
}

pub(crate) fn run_lines(rt: &(impl Files + Print + Eprint)) -> io::Result<()> {
    // A file that is longer than the array is cut.
    let mut cases = [0u8; 65536];
    let n = text::read_file(rt, b"cases", &mut cases);
    for line in Lines::new(&cases[..n]) {
        take_line(rt, line)?;
    }
    Ok(())
}
