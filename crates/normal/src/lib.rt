// The normal form of an application text, and the place where each of its characters began.
// Each call takes any text and any lent buffer, and says all of its result; a refusal writes nothing. Its meaning is
// defined in specs/: Normal, Calls.
#![tactic(auto)]

ghost use Rattle.std.specs.Prelude.{◌≡◌, ◌<◌, ◌∷◌, slice_get, length};
ghost use Rattle.lists.specs.Front.{Puts};
ghost use Rattle.normal.specs.Normal.{normal_form, places};
ghost use Rattle.normal.specs.Calls.{Normalises};
ghost use Rattle.refusals.specs.Refusals.{filled};

use characters::{joined, replaced};
use refusals::{Refusal, Refused};

// The longest text, and the room that a normal form asks for.
pub const MOST: usize = 256;

// Writes the normal form of a first code point and the rest to the buffer's start, and returns its length. `last` is not yet written: a mark
// may follow it.
fn fill(first: u32, rest: &[u32], out: &mut [u32]) -> usize
    requires { length rest.now < length out.old }
    ensures { Puts (normal_form (first ∷ rest.now)) out.old out.new 0 result }
{
    let mut last = replaced(first);
    let mut n = 0;
    for raw in rest {
        let next = replaced(*raw);
        match joined(last, next) {
            Some(one) => last = one,
            None => {
                out[n] = last;
                n += 1;
                last = next;
            }
        }
    }
    out[n] = last;
    n + 1
}

// How long the normal form is that is written to the buffer's start.
pub fn normal_form(text: &[u32], out: &mut [u32]) -> Result<usize, Refused>
    ensures { Normalises text.now out.old out.new (filled result) }
{
    if out.len() < MOST {
        return Err(Refusal::NoRoom.at(0));
    }
    let Some((first, rest)) = text.split_first() else {
        return Err(Refusal::NoText.at(0));
    };
    if MOST < text.len() {
        return Err(Refusal::TooLong.at(MOST));
    }
    Ok(fill(*first, rest, out))
}

// The index in the text where the k-th character of its normal form began, where there is one. `last` began at `start`.
pub fn place_of(text: &[u32], k: usize) -> Option<usize>
    ensures { result ≡ slice_get (places text.now) k }
{
    let (first, rest) = text.split_first()?;
    let mut last = replaced(*first);
    let mut start = 0;
    let mut n = 0;
    for (i, raw) in rest.iter().enumerate() {
        let c = replaced(*raw);
        match joined(last, c) {
            Some(one) => last = one,
            None if n == k => return Some(start),
            None => {
                n += 1;
                last = c;
                start = i + 1;
            }
        }
    }
    if n == k { Some(start) } else { None }
}
