// The ASCII form of a label, and of labels joined by periods, which names and hosts share. The call takes any label and any lent buffer and
// says all of its result; a refusal writes nothing. Its meaning is defined in specs/Labels; what it says of the labels of a name stands in
// specs/Ascii and proofs/OfNames. What the coder does is known by its stated answers alone.
#![tactic(auto)]

ghost use Rattle.std.specs.Prelude.{◌≡◌, false, ◌≤◌, length};
ghost use Rattle.lists.specs.Tests.{any_of};
ghost use Rattle.lists.specs.Front.{written};
ghost use Rattle.ascii.specs.Labels.{high, Forms};
ghost use Rattle.refusals.specs.Refusals.{filled};

use refusals::{Refusal, Refused};

// The longest label in octets, and the room that its form asks for.
const MOST: usize = 63;

// Does it hold a code point of 80 or more? Of what may stand in a label those are the Japanese characters.
fn any_high(label: &[u32]) -> bool
    ensures { result ≡ any_of high label.now }
{
    label.iter().copied().any(|c| 0x80 <= c)
}

// Puts a label of code points below 80 at the buffer's start.
fn put_low(label: &[u32], out: &mut [u8])
    requires { (any_of high label.now ≡ false) × (length label.now ≤ length out.old) }
    ensures { out.new ≡ written label.now out.old }
{
    for (i, c) in label.iter().enumerate() {
        out[i] = *c as u8;
    }
}

// The ASCII form of a label: encoded where it holds a code point of 80 or more, else as it is.
pub fn label_form(label: &[u32], out: &mut [u8]) -> Result<usize, Refused>
    ensures { Forms label.now out.old out.new (filled result) }
{
    if any_high(label) {
        return punycode::encode(label, out);
    }
    if out.len() < MOST {
        return Err(Refusal::NoRoom.at(0));
    }
    let length = label.len();
    if MOST < length {
        return Err(Refusal::Over63.at(0));
    }
    put_low(label, out);
    Ok(length)
}
