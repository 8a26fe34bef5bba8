// RFC 3492 for one label, in the form "xn--..." that a name carries: a coder and a decoder.
//
// Each call takes any numbers and any buffer, and its contract decides the number that it answers, the length, and every entry
// of the buffer; a call that refuses writes nothing. What the calls mean is defined in specs/: Punycode (the RFC's procedure, and which
// labels are encoded) and Calls (the answers). That decoding undoes encoding is proved in proofs/Theorems.
#![tactic(auto)]

mod bias;
mod coder;
mod decoder;
mod label;
mod text;

ghost use Rattle.punycode.specs.Calls.{Encodes, Decodes};
ghost use Rattle.refusals.specs.Refusals.{filled};

use refusals::{Refusal, Refused};

// The room that a call asks for, in octets or in code points.
const ROOM: usize = 63;

// The encoding of a label.
pub fn encode(label: &[u32], out: &mut [u8]) -> Result<usize, Refused>
    ensures { Encodes label.now out.old out.new (filled result) }
{
    if out.len() < ROOM {
        return Err(Refusal::NoRoom.at(0));
    }
    if label.len() > ROOM {
        return Err(Refusal::NotEncodable.at(0));
    }
    let Some(text) = coder::ace(label) else {
        return Err(Refusal::NotEncodable.at(0));
    };
    let ace = text.as_slice();
    let n = ace.len();
    if n > ROOM {
        return Err(Refusal::Over63.at(0));
    }
    out[..n].copy_from_slice(ace);
    Ok(n)
}

// The label that octets encode.
pub fn decode(octets: &[u8], out: &mut [u32]) -> Result<usize, Refused>
    ensures { Decodes octets.now out.old out.new (filled result) }
{
    if out.len() < ROOM {
        return Err(Refusal::NoRoom.at(0));
    }
    if octets.len() > ROOM {
        return Err(Refusal::NotEncoded.at(0));
    }
    let mut low = [0; 64];
    let low = &mut low[..octets.len()];
    low.copy_from_slice(octets);
    low.make_ascii_lowercase();
    let mut text = [0; 64];
    let Some(label) = decoder::found(low, &mut text) else {
        return Err(Refusal::NotEncoded.at(0));
    };
    let n = label.len();
    out[..n].copy_from_slice(label);
    Ok(n)
}
