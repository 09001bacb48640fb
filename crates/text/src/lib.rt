// A text: a file of it, read, and its lines.
#![tactic(auto)]

ghost use Rattle.std.specs.Prelude.{◌≡◌, ◌==◌, position, length};
ghost use Rattle.std.specs.Iterator.{at_most};
ghost use Rattle.io.specs.Counts.{IsPrefixLen};
ghost use Rattle.text.specs.Lines.{line_end, GivesLine};

use std::fs;
use std::io::Read;
use std::rt::Files;

pub const LF: u8 = 10;

// The number of bytes of a file, which are put at the start of text; 0 and a word on standard error if it can't be read. What a file holds is not known, so the
// contract says only that they have room. A path that is no UTF-8 names no file here. It promises a number for each path (docs/CONTRACTS.md).
pub fn read_file(rt: &(impl Files + Eprint), path: &[u8], text: &mut [u8]) -> usize
    ensures { IsPrefixLen result text.new }
{
    let name = match str::from_utf8(path) {
        Ok(name) => name,
        Err(e) => {
            let _ = eprintln!(rt; "{path:?}: {e}");
            return 0;
        }
    };
    match fs::open(rt, name) {
        Ok(mut file) => read_full(&mut file, text),
        Err(e) => {
            let _ = eprintln!(rt; "{name}: {e}");
            0
        }
    }
}

// Reads until text is full, the input ends or a read fails: the number of bytes that were put at the start of text. `read_exact` gives no such number.
fn read_full(from: &mut impl Read, text: &mut [u8]) -> usize
    ensures { IsPrefixLen result text.new }
{
    let mut done = 0;
    while done < text.len() {
        match from.read(&mut text[done..]) {
            Ok(0) | Err(_) => break,
            Ok(n) => done += n,
        }
    }
    done
}

// The place of the first LF, or none.
fn find_lf(text: &[u8]) -> Option<usize>
    ensures { result ≡ position (λ b. b == 10) text.now }
{
    text.iter().position(|b| *b == LF)
}

// The place behind the line that begins at a place: behind its LF, or the end.
pub fn line_end(text: &[u8], at: usize) -> usize
    ensures { result ≡ line_end at text.now }
{
    if at >= text.len() {
        return text.len();
    }
    match find_lf(&text[at..]) {
        Some(n) => at + n + 1,
        None => text.len(),
    }
}

// The lines that are left of a text, each with its LF; the last may have none.
#[derive(Drop)]
pub struct Lines<'a> {
    rest: &'a [u8],
}

impl<'a> Lines<'a> {
    // Of a whole text.
    pub fn new(text: &'a [u8]) -> Self
        ensures { result ≡ record { rest = text.entry } }
    {
        Lines { rest: text }
    }
}

impl<'a> Iterator for Lines<'a> {
    type Item = &'a [u8];

    ghost next_gives = { λ s r t. GivesLine s.rest.now r t.rest.now };

    ghost remaining = { λ s. at_most (length s.rest.now) };

    fn next(&mut self) -> Option<&'a [u8]> {
        if self.rest.is_empty() {
            return None;
        }
        let (line, rest) = self.rest.split_at(line_end(self.rest, 0));
        self.rest = rest;
        Some(line)
    }
}
