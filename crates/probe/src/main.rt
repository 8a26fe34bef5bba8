// The test program. It reads cases, one to a line, runs the public call that each names, and prints every part of the answer and of
// the lent buffer. `reference/` makes cases and says what is right; its README has the format.
// What is proved here is that the program is safe and ends; that the calls are right is proved where they stand. The gate runs it on
// `stdin` and holds what it writes to `stdout`; both are made by `reference/` (.ci/cases).
#![tactic(auto)]

mod answers;
mod cases;
mod kinds;
mod label;
mod lent;
mod outside;
mod printed;
mod slices;
mod streams;
mod wishing;

use std::alloc::Global;
use std::io;
use std::io::{BufRead, BufReader, BufWriter, Read, Write};

// How many bytes are read and written at once.
const AT_ONCE: usize = 65536;

// How many bytes are kept of a line. A case has fewer, so what is kept of a longer line is no case either.
const KEPT: usize = cases::LONGEST_CASE + 1;

// A writer that passes over what fails: that is lost, and the writes after it are tried all the same.
#[derive(Drop)]
struct Undaunted<W> {
    to: W,
}

impl<W: Write> Write for Undaunted<W> {
    fn write(&mut self, buf: &[u8]) -> io::Result<usize> {
        let _ = self.to.write_all(buf);
        Ok(buf.len())
    }

    fn flush(&mut self) -> io::Result<()> {
        let _ = self.to.flush();
        Ok(())
    }
}

// Adds what comes next to a line: through its LF, but at most KEPT bytes. How many: fewer with no LF are the end of the input. So is a read that
// fails, and what came before it is in the line.
fn read_on(input: &mut impl BufRead, line: &mut Vec<u8>) -> usize {
    let mut piece = input.by_ref().take(KEPT as u64);
    piece.read_until(b'\n', line).unwrap_or(0)
}

// The answer to a line, and an LF.
fn answer_line(kanji: &[u32], alloc: Global, line: &[u8], out: &mut impl Write) -> io::Result<()> {
    answers::answer(kanji, alloc, line, out)?;
    out.write_all(b"\n")
}

// Answers each line, and a last one that no LF ends where it is not empty. Nothing says that an input ends, so the turns are counted; no run
// comes to the last.
fn answer_all(
    kanji: &[u32],
    alloc: Global,
    input: &mut impl BufRead,
    out: &mut impl Write,
) -> io::Result<()> {
    // What is kept of a line, and what is added to it at once.
    let mut line = Vec::with_capacity(alloc, 2 * KEPT)?;
    for _ in 0..u64::MAX {
        let read = read_on(input, &mut line);
        if let Some(whole) = line.strip_suffix(b"\n") {
            answer_line(kanji, alloc, whole, out)?;
            line.clear();
        } else if read < KEPT {
            break;
        }
        // The rest of a line that is too long is dropped piece by piece.
        line.truncate(KEPT);
    }
    if !line.is_empty() {
        answer_line(kanji, alloc, &line, out)?;
    }
    Ok(())
}

// The table of kanji is named once, here.
fn run(rt: &(impl Input + Print + AllocGlobal)) -> io::Result<()> {
    let alloc = rt.alloc();
    let kanji = characters::kanji_bits();
    let to = io::writer(rt);
    let mut input = BufReader::with_capacity(alloc, AT_ONCE, rt.reader())?;
    let mut out = BufWriter::with_capacity(alloc, AT_ONCE, Undaunted { to })?;
    answer_all(&kanji, alloc, &mut input, &mut out)?;
    out.flush()
}

// Only a lack of memory ends the run early. Whoever compares the output finds what is missing.
fn main(rt: HostRuntime) {
    let _ = run(&rt);
}
