// A case as a line says it: the call's letter, and an edition in decimal where one is asked for; a space, a length in decimal, and then each
// number, in hexadecimal, with a space before it. None is written with zeros in front. The length is the lent buffer's; a call that is lent none
// may take it for an index.
ghost use Rattle.std.specs.Prelude.{◌≤◌, IfOk, IfSome};

use rules::IN_FORCE;
use std::alloc::{AllocError, Global};

// No case is longer.
pub(crate) const LONGEST_CASE: usize = 4000;

// No lent buffer has more entries.
const ROOM: u32 = 300;

// The calls that take an edition.
const BY_EDITION: &[u8] = b"ACIJKLMOQRVYacjlv";

// The call, the edition that is asked for, the lent buffer's length and the numbers.
#[derive(Drop)]
pub(crate) struct Case {
    pub(crate) call: u8,
    pub(crate) edition: u32,
    pub(crate) room: usize,
    pub(crate) numbers: Vec<u32>,
}

// What a digit stands for, of base ten or sixteen. A letter alone has bit 6, and its lower bits begin at 1: with no branch between digits and
// letters, which numbers mix.
fn digit(b: u8) -> Option<u32> {
    let value = u32::from(b & 15) + 9 * u32::from(b >> 6);
    matches!(b, b'0'..=b'9' | b'a'..=b'f').then_some(value)
}

// The number that a word spells, by what it spells without its last byte: zeros in front are refused.
fn grown(before: Option<u32>, last: u8, radix: u32) -> Option<u32> {
    let d = digit(last).filter(|d| *d < radix)?;
    match before {
        None => Some(d),
        Some(0) => None,
        Some(x) => x.checked_mul(radix)?.checked_add(d),
    }
}

// The number that a word spells.
fn number(word: &[u8], radix: u32) -> Option<u32> {
    let mut x = None;
    for b in word {
        x = Some(grown(x, *b, radix)?);
    }
    x
}

// The numbers that words spell. Each takes two bytes with the space after it, but for the last.
fn numbers(alloc: Global, words: &[u8]) -> Result<Option<Vec<u32>>, AllocError> {
    let mut numbers = Vec::with_capacity(alloc, words.len() / 2 + 1)?;
    let mut word = None;
    for b in words {
        if *b == b' ' {
            let Some(x) = word.take() else {
                return Ok(None);
            };
            numbers.push(x)?;
        } else if let Some(x) = grown(word, *b, 16) {
            word = Some(x);
        } else {
            return Ok(None);
        }
    }
    let Some(last) = word else {
        return Ok(None);
    };
    numbers.push(last)?;
    Ok(Some(numbers))
}

// The edition that a call is asked with: the one that is written after its letter, or the one in force where none is.
fn edition_of(call: u8, written: &[u8]) -> Option<u32> {
    if written.is_empty() {
        return Some(IN_FORCE);
    }
    if !BY_EDITION.contains(&call) {
        return None;
    }
    number(written, 10)
}

// The lent buffer's length.
fn room_of(word: &[u8]) -> Option<usize>
    ensures { IfSome result (λ n. n ≤ 300) }
{
    let room = number(word, 10)?;
    (room <= ROOM).then_some(room as usize)
}

// The call, the edition and the length that the first two words say.
fn head_of(first: Option<&[u8]>, second: Option<&[u8]>) -> Option<(u8, u32, usize)>
    ensures { IfSome result (λ r. r.2 ≤ 300) }
{
    let (call, written) = first?.split_first()?;
    Some((*call, edition_of(*call, written)?, room_of(second?)?))
}

// The case that a line says.
pub(crate) fn read(alloc: Global, line: &[u8]) -> Result<Option<Case>, AllocError>
    ensures { IfOk result (λ found. IfSome found (λ case. case.room ≤ 300)) }
{
    if line.len() > LONGEST_CASE {
        return Ok(None);
    }
    let mut words = line.splitn(3, |b| *b == b' ');
    let first = words.next();
    let Some((call, edition, room)) = head_of(first, words.next()) else {
        return Ok(None);
    };
    let found = match words.next() {
        Some(rest) => numbers(alloc, rest)?,
        None => Some(Vec::new(alloc)),
    };
    Ok(found.map(|numbers| Case {
        call,
        edition,
        room,
        numbers,
    }))
}
