// The program: reads lines from standard input and writes their answers to standard output, 64 KiB at a time. It holds the table
// of kanji, two buffers and one line, so its memory does not grow with the input. An error is told on standard error and stops it.
// Its contracts say how many bytes of answers it counts as handed to standard output, by the rules in force; which bytes, those of `batch` say.
#![tactic(auto)]

ghost use Rattle.std.specs.Prelude.{◌≡◌, ◌≤◌, length, IfOk};
ghost use Rattle.characters.specs.KanjiBits.{kanji_bits};
ghost use Rattle.answer.specs.Answers.{most};
ghost use Rattle.desk.specs.Handed.{FedAll, EndTold};

use batch::stream::Line;
use std::io::Read;
use std::process::ExitCode;
use std::{fmt, io};

// What stopped a run: a read, or a write.
#[derive(Debug, Drop)]
enum Failed {
    Input(io::Error),
    Output(io::Error),
}

impl fmt::Display for Failed {
    fn fmt<W: fmt::Write>(&self, f: &mut fmt::Formatter<W>) -> fmt::Result {
        match self {
            Failed::Input(e) => write!(f, "standard input: {e}"),
            Failed::Output(e) => write!(f, "standard output: {e}"),
        }
    }
}

// How many bytes were handed to standard output, and the line that is carried on.
#[derive(Drop)]
struct Carried {
    pub count: usize,
    pub line: Line,
}

// One read: how many bytes, 0 at the end of the input.
fn read(input: &mut impl Read, buf: &mut [u8]) -> Result<usize, Failed>
    ensures { IfOk result (λ n. n ≤ length buf.new) }
{
    input.read(buf).map_err(Failed::Input)
}

// Hands the answers to standard output, and says how many bytes they are.
fn write(rt: &impl Print, answers: &[u8]) -> Result<usize, Failed>
    ensures { IfOk result (λ n. n ≡ length answers.now) }
{
    rt.write_all(answers).map_err(Failed::Output)?;
    Ok(answers.len())
}

// Feeds a piece to its end, and hands out what that gives.
fn feed_all(
    rt: &impl Print,
    kanji: &[u32],
    line: Line,
    piece: &[u8],
    out: &mut [u8],
) -> Result<Carried, Failed>
    requires { (kanji.now ≡ kanji_bits) × (length piece.now ≤ 65536) × (most ≤ length out.old) }
    ensures { IfOk result (λ r. FedAll line piece.now r) }
{
    let mut line = line;
    let mut rest = piece;
    let mut count = 0;
    // What a feed leaves of the piece is fed again.
    while !rest.is_empty() {
        let fed = batch::stream::feed_with(kanji, line, rest, out);
        count += write(rt, &out[..fed.wrote])?;
        rest = &rest[fed.used..];
        line = fed.line;
    }
    Ok(Carried { count, line })
}

// Tells the end of the input, and hands out what that gives.
fn end(rt: &impl Print, kanji: &[u32], line: Line, out: &mut [u8]) -> Result<Carried, Failed>
    requires { (kanji.now ≡ kanji_bits) × (most ≤ length out.old) }
    ensures { IfOk result (λ r. EndTold line r) }
{
    // There is room, so a last line is answered.
    let length = batch::stream::finish_with(kanji, line, out).unwrap();
    let count = write(rt, &out[..length])?;
    Ok(Carried { count, line })
}

// Feeds all of the input, and then tells its end: what comes back is the line that was carried then, and how many bytes were handed out for
// it. The count of turns only shows that the loop ends: no input takes as many.
fn run(
    rt: &(impl Input + Print),
    kanji: &[u32],
    buf: &mut [u8],
    out: &mut [u8],
) -> Result<Carried, Failed>
    requires { (kanji.now ≡ kanji_bits) × (length buf.old ≤ 65536) × (most ≤ length out.old) }
    ensures { IfOk result (λ r. EndTold r.line r) }
{
    let mut input = rt.reader();
    let mut line = batch::stream::new();
    for _ in 0..u64::MAX {
        let n = read(&mut input, buf)?;
        if n == 0 {
            return end(rt, kanji, line, out);
        }
        line = feed_all(rt, kanji, line, &buf[..n], out)?.line;
    }
    Err(Failed::Input(io::ErrorKind::FileTooLarge.into()))
}

// The exit status is 1 where a read or a write failed.
fn main(rt: HostRuntime) -> ExitCode {
    let kanji = characters::kanji_bits();
    let mut buf = [0u8; 65536];
    let mut out = [0u8; 65536];
    match run(&rt, &kanji, &mut buf, &mut out) {
        Ok(_) => ExitCode::SUCCESS,
        Err(failed) => {
            let _ = eprintln!(rt; "{failed}");
            ExitCode::FAILURE
        }
    }
}
