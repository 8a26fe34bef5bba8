// The usual line: an id, a tab, and a short name of ASCII and of three-byte code points, up to an LF in the same piece. It is answered
// straight from the input, in one go. What is said of it is defined in specs/: Usual.
ghost use Rattle.std.specs.Prelude.{◌≡◌, ◌+◌, ◌*◌, ◌%◌, ◌≤◌, length, IfSome};
ghost use Rattle.lists.specs.Tests.{within};
ghost use Rattle.rules.specs.Editions.{today_with};
ghost use Rattle.answer.specs.Answer.{answer_to};
ghost use Rattle.answer.specs.Usual.{leads_three, FirstCode, Reads, MayAnswer};

use crate::{AnsweredLine, put_text};
use lines::{field_at, is_id};

// How many code points a name has, and where the LF is that ends it.
#[derive(Clone, Copy)]
struct Read {
    count: usize,
    end: usize,
}

// The first byte of three for a value of 1000 to CFFF or E000 to FFFF: none is overlong, none a surrogate.
#[tactic(auto, using(lists::proofs::Laws::inside, lists::proofs::Laws::outside), unfolding(crate::specs::Usual::leads_three))]
fn is_first(b: u8) -> bool
    ensures { result ≡ leads_three b }
{
    matches!(b, 0xE1..=0xEC | 0xEE..=0xEF)
}

// A byte that goes on a value.
#[tactic(auto, using(lists::proofs::Laws::inside, lists::proofs::Laws::outside))]
fn is_tail(b: u8) -> bool
    ensures { result ≡ within 0x80 0xBF b }
{
    matches!(b, 0x80..=0xBF)
}

// The value of three bytes.
fn value(a: u8, b: u8, c: u8) -> u32
    ensures { result ≡ a % 16 * 4096 + b % 64 * 64 + c % 64 }
{
    u32::from(a % 16) * 4096 + u32::from(b % 64) * 64 + u32::from(c % 64)
}

// The first code point, of ASCII and no control character or one of such values, and what follows it.
fn first_code(s: &[u8]) -> Option<(u32, &[u8])>
    ensures { IfSome result (λ r. FirstCode s.now r.0 r.1.now) }
{
    if let [a @ 0x20..=0x7F, rest @ ..] = s {
        return Some((u32::from(*a), rest));
    }
    match s {
        [a, b, c, rest @ ..] if is_first(*a) && is_tail(*b) && is_tail(*c) => {
            Some((value(*a, *b, *c), rest))
        }
        _ => None,
    }
}

// Reads a name of such code points up to an LF: they go to the start of out. Of any other nothing is said, and none is read past 64 bytes.
fn read_name(s: &[u8], out: &mut [u32]) -> Option<Read>
    requires { 64 ≤ length out.old }
    ensures { IfSome result (λ r. Reads s.now out.new r) }
{
    let reach = s.len().min(64);
    let mut rest = &s[..reach];
    let mut count = 0;
    while let [b, ..] = rest {
        if *b == b'\n' {
            let end = reach - rest.len();
            return Some(Read { count, end });
        }
        let (code, after) = first_code(rest)?;
        out[count] = code;
        count += 1;
        rest = after;
    }
    None
}

// Answers the first line of a piece, straight from it, where it is a usual one that ends there. Of another nothing is said, and nothing
// is written for it.
pub(crate) fn usual_line(kanji: &[u32], piece: &[u8], out: &mut [u8]) -> Option<AnsweredLine>
    requires { 256 ≤ length out.old }
    ensures { MayAnswer (answer_to (today_with kanji.now)) piece.now out.old out.new result }
{
    // An id and its tab are in the first 33 bytes, so no tab is looked for past these.
    let reach = piece.len().min(33);
    let id = field_at(&piece[..reach], 0);
    let tab = id.end;
    if reach <= tab || !is_id(&piece[..tab]) {
        return None;
    }
    let mut text = [0u32; 64];
    let start = id.next;
    let read = read_name(&piece[start..], &mut text)?;
    let length = put_text(kanji, &piece[..tab], &text[..read.count], out);
    Some(AnsweredLine {
        end: start + read.end,
        length,
    })
}
