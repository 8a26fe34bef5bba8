// UTF-8 (RFC 3629): the code points of bytes. The call takes any bytes and any lent buffer, says all of its result, and writes nothing
// where it refuses. Its meaning is defined in specs/: Utf8; what it answers and writes in Decodes. That it reads exactly the encodings
// of scalar values is the theorem of proofs/Encoding.
#![tactic(auto)]

ghost use Rattle.std.specs.Prelude.{◌≡◌, ◌+◌, ◌^◌, ◌<◌, set, None, Some};
ghost use Rattle.lists.specs.Tests.{within};
ghost use Rattle.utf8.specs.Utf8.{proper, decoded};
ghost use Rattle.utf8.specs.Decodes.{Decodes, DecodesUpToFault, decoded_told, Bound, Waits, Steps};

// A value of which bytes are yet to follow: how many, the least value that needs as many as it has, and its bits so far.
#[derive(Clone, Copy)]
struct Begun {
    need: usize,
    least: u32,
    bits: u32,
}

// What a byte comes to: it ends a code point, or more bytes are to follow.
#[derive(Clone, Copy)]
enum Step {
    Code(u32),
    More(Begun),
}

// A code point's first byte.
fn first_byte(b: u8) -> Option<Step>
    ensures { Steps b None result }
{
    let v = u32::from(b);
    match b {
        0x00..=0x7F => Some(Step::Code(v)),
        0xC0..=0xDF => Some(Step::More(Begun {
            need: 1,
            least: 0x80,
            bits: v - 0xC0,
        })),
        0xE0..=0xEF => Some(Step::More(Begun {
            need: 2,
            least: 0x800,
            bits: v - 0xE0,
        })),
        0xF0..=0xF7 => Some(Step::More(Begun {
            need: 3,
            least: 0x10000,
            bits: v - 0xF0,
        })),
        _ => None,
    }
}

// Whether a value may take as many bytes as it has: no overlong form, and a scalar value.
fn is_proper(least: u32, v: u32) -> bool
    ensures { result ≡ proper least v }
{
    least <= v && matches!(v, 0..=0xD7FF | 0xE000..=0x10FFFF)
}

// Whether a byte goes on a value.
#[tactic(auto, using(lists::proofs::Laws::inside, lists::proofs::Laws::outside))]
fn is_tail(b: u8) -> bool
    ensures { result ≡ within 0x80 0xBF b }
{
    matches!(b, 0x80..=0xBF)
}

// A byte past the first: another of a value's, or its last, which makes it a code point if it is a proper one.
fn next_byte(value: Begun, b: u8) -> Option<Step>
    requires { Bound value.need value.bits }
    ensures { Steps b (Some value) result }
{
    if !is_tail(b) {
        return None;
    }
    let bits = value.bits * 64 + u32::from(b - 0x80);
    if 1 < value.need {
        return Some(Step::More(Begun {
            need: value.need - 1,
            bits,
            ..value
        }));
    }
    is_proper(value.least, bits).then_some(Step::Code(bits))
}

fn take_byte(begun: Option<Begun>, b: u8) -> Option<Step>
    requires { Waits begun }
    ensures { Steps b begun result }
{
    match begun {
        None => first_byte(b),
        Some(value) => next_byte(value, b),
    }
}

// Writes c at n, where that is in the buffer; the next place.
fn put_code(out: &mut [u32], n: usize, c: u32) -> usize
    requires { n + 1 < 2 ^ 64 }
    ensures { (result ≡ n + 1) × (out.new ≡ set out.old n c) }
{
    if n < out.len() {
        out[n] = c;
    }
    n + 1
}

// How many code points well-formed bytes are, in one pass. It writes as it goes: those before the first fault, as many as fit, to the start of out.
fn decode_up_to_fault(bytes: &[u8], out: &mut [u32]) -> Option<usize>
    ensures { DecodesUpToFault bytes.now out.old out.new (decoded_told result) }
{
    let mut begun: Option<Begun> = None;
    let mut count = 0;
    for &b in bytes {
        match take_byte(begun, b)? {
            Step::More(value) => begun = Some(value),
            Step::Code(c) => {
                begun = None;
                count = put_code(out, count, c);
            }
        }
    }
    begun.is_none().then_some(count)
}

// Whether there is no fault. The pass writes to an entry of its own, which goes nowhere.
fn is_well_formed(bytes: &[u8]) -> bool
    ensures { result ≡ (decoded bytes.now).ok }
{
    decode_up_to_fault(bytes, &mut [0u32; 1]).is_some()
}

// How many code points well-formed bytes are: as many as fit go to the start of out. Of other bytes nothing is counted, and nothing written.
pub fn decode(bytes: &[u8], out: &mut [u32]) -> Option<usize>
    ensures { Decodes bytes.now out.old out.new (decoded_told result) }
{
    if !is_well_formed(bytes) {
        return None;
    }
    decode_up_to_fault(bytes, out)
}
