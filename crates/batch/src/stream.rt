// A batch that arrives in pieces which know nothing of lines: each piece is fed, and then the end is told. What is carried from
// piece to piece is the line whose end has not come. Their meaning is defined in specs/: Stream, Feed.
ghost use Rattle.std.specs.Prelude.{◌≡◌, ◌≤◌, length};
ghost use Rattle.rules.specs.Editions.{today_with};
ghost use Rattle.answer.specs.Answer.{answer_to, bad_answer};
ghost use Rattle.answer.specs.Answers.{Writes, wrote_told};
ghost use Rattle.batch.specs.Stream.{fresh, pushed_all, closed};
ghost use Rattle.batch.specs.Feed.{Scans, Feeds, rest_of, Finishes, finish_told};

use answer::{LONGEST_LINE, MOST, answer_with, next_with};
use lines::line_end;

// The bytes of a line whose end has not come, and how many; over 1,024 says that there were more. Of one size, since nothing is allocated.
#[derive(Clone, Copy)]
pub struct Line {
    pub held: [u8; 1024],
    pub n: usize,
}

// How much of a piece is used, how many bytes are written for it, and the line that is carried on.
#[derive(Clone, Copy)]
pub struct Fed {
    pub used: usize,
    pub wrote: usize,
    pub line: Line,
}

// Where the last line that was answered ends, and how many bytes the answers have.
#[derive(Drop)]
struct Scanned {
    pub at: usize,
    pub length: usize,
}

// Before the first piece nothing is carried.
pub fn new() -> Line
    ensures { result ≡ fresh }
{
    Line {
        held: [0u8; 1024],
        n: 0,
    }
}

// The carried line with the bytes of a piece after it: those for which there is room are held.
fn carried(line: Line, piece: &[u8]) -> Line
    ensures { result ≡ pushed_all line piece.now }
{
    let mut held = line.held;
    let start = line.n.min(LONGEST_LINE);
    let fitting = piece.len().min(LONGEST_LINE - start);
    held[start..start + fitting].copy_from_slice(&piece[..fitting]);
    let n = if fitting < piece.len() {
        LONGEST_LINE + 1
    } else {
        line.n + fitting
    };
    Line { held, n }
}

// The answer to a carried line, and how many bytes it has, where there is room for the longest. All lines that are too long have one answer,
// so any of them may be asked.
fn close(kanji: &[u32], line: Line, out: &mut [u8]) -> Option<usize>
    ensures { Writes (closed (answer_to (today_with kanji.now)) bad_answer line) out.old out.new (wrote_told result) }
{
    let count = line.n;
    if count <= LONGEST_LINE {
        return answer_with(kanji, &line.held[..count], out);
    }
    answer_with(kanji, &[0; LONGEST_LINE + 1], out)
}

// Answers the lines that end in a piece, straight from it, while there is room. A turn moves both places on by what its line takes.
fn scan(kanji: &[u32], piece: &[u8], out: &mut [u8]) -> Scanned
    ensures { Scans (answer_to (today_with kanji.now)) bad_answer piece.now out.old out.new result }
{
    let mut at = 0;
    let mut length = 0;
    while let Some(line) = next_with(kanji, &piece[at..], &mut out[length..]) {
        length += line.length;
        at += line.end + 1;
    }
    Scanned { at, length }
}

// The lines of a piece up to `at` are answered, in `wrote` bytes: with room for a further answer the rest is carried on.
fn rest(piece: &[u8], at: usize, wrote: usize, room: usize) -> Fed
    requires { at ≤ length piece.now }
    ensures { result ≡ rest_of piece.now at wrote room }
{
    let used = if room < MOST { at } else { piece.len() };
    Fed {
        used,
        wrote,
        line: carried(new(), &piece[at..used]),
    }
}

// Feeds a piece that begins with a line, since no byte is carried: its lines are answered straight from it.
fn feed_lines(kanji: &[u32], line: Line, piece: &[u8], out: &mut [u8]) -> Fed
    requires { (line.n ≡ 0) × (256 ≤ length out.old) }
    ensures { Feeds (answer_to (today_with kanji.now)) bad_answer line piece.now out.old out.new result }
{
    let Scanned { at, length } = scan(kanji, piece, out);
    if at == 0 {
        // No line ended, so the line goes on.
        return Fed {
            used: piece.len(),
            wrote: 0,
            line: carried(line, piece),
        };
    }
    rest(piece, at, length, out.len() - length)
}

// Feeds a piece: answers each line that ends in it, while there is room, and carries on the rest. What it does not use is fed again.
pub fn feed_with(kanji: &[u32], line: Line, piece: &[u8], out: &mut [u8]) -> Fed
    ensures { Feeds (answer_to (today_with kanji.now)) bad_answer line piece.now out.old out.new result }
{
    if out.len() < MOST {
        return Fed {
            used: 0,
            wrote: 0,
            line,
        };
    }
    if line.n == 0 {
        return feed_lines(kanji, line, piece, out);
    }
    let first_end = line_end(piece, 0);
    if piece.len() <= first_end {
        return Fed {
            used: piece.len(),
            wrote: 0,
            line: carried(line, piece),
        };
    }
    let first = carried(line, &piece[..first_end]);
    // There is room, so it is answered.
    let length = close(kanji, first, out).unwrap();
    let start = first_end + 1;
    let scanned = scan(kanji, &piece[start..], &mut out[length..]);
    let at = start + scanned.at;
    let wrote = length + scanned.length;
    rest(piece, at, wrote, out.len() - wrote)
}

// The end of the input: how many bytes the answer to a last line has that no LF ended, 0 with no such line. Without room for the longest
// nothing is written, and no number told.
pub fn finish_with(kanji: &[u32], line: Line, out: &mut [u8]) -> Option<usize>
    ensures { Finishes (answer_to (today_with kanji.now)) bad_answer line out.old out.new (finish_told result) }
{
    if line.n == 0 {
        return (MOST <= out.len()).then_some(0);
    }
    close(kanji, line, out)
}
