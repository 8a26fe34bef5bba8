// The decoding procedure, RFC 3492, section 6.2, which finds a label; its encoding is then compared with the octets.
ghost use Rattle.std.specs.Prelude.{◌+◌, ◌-◌, ◌*◌, ◌≤◌, ◌<◌, ◌≡◌, ◌≢◌, length, take, drop, Option, Some, IfSome, MatchOption};
ghost use Rattle.std.specs.List.{AllWithin, HoldsAt};
ghost use Rattle.punycode.specs.Decoding;
ghost use Rattle.punycode.specs.Inner.{read, Bounded, answer};

use crate::bias::{BASE, BOUND, INITIAL_BIAS, INITIAL_N, LIMIT, adapt, threshold};
use crate::coder::ace;

#[tactic(auto, unfolding(crate::specs::Decoding::value, lists::specs::Tests::within))]
fn value(c: u8) -> Option<u32>
    ensures { MatchOption result (Decoding.value c ≡ 36) (λ d. (d ≡ Decoding.value c) × (d < 36)) }
{
    match c {
        b'a'..=b'z' => Some(u32::from(c - b'a')),
        b'0'..=b'9' => Some(u32::from(c - b'0') + 26),
        _ => None,
    }
}

// `x` at `p` of the first `len`.
#[tactic(auto, using(crate::proofs::Room::moved_up), unfolding(crate::specs::Decoding::insert))]
fn insert(out: &mut [u32; 64], len: usize, p: usize, x: u32)
    requires { (len < 64) × (p ≤ len) }
    ensures { take (len + 1) out.new ≡ Decoding.insert p x (take len out.old) }
{
    out.copy_within(p..len, p + 1);
    out[p] = x;
}

// What the loops change; `len` code points stand in the lent output. Its length stands here, since code points are inserted in its middle and
// nothing is allocated.
#[derive(Drop)]
struct Reader {
    n: u32,
    bias: u32,
    len: usize,
    oldi: u32,
    i: u32,
    w: u32,
    k: u32,
}

fn place(s: Reader, i: u32, out: &mut [u32; 64]) -> Option<Reader>
    requires { Bounded s × (s.len < 63) × (s.oldi ≤ i) × (i < 0x4400000) }
    ensures { IfSome result (λ r. Bounded r × (r.len ≤ s.len + 1) × (r.k ≤ s.k + 36))
        × (read result out.new ≡ Decoding.place s.n (take s.len out.old) s.oldi i) }
{
    let len = s.len as u32 + 1;
    let n = s.n + i / len;
    if n >= LIMIT {
        return None;
    }
    let p = i % len;
    let bias = adapt(i - s.oldi, len, s.oldi == 0);
    insert(out, s.len, p as usize, n);
    Some(Reader {
        n,
        bias,
        len: s.len + 1,
        oldi: p + 1,
        i: p + 1,
        w: 1,
        k: BASE,
    })
}

// i and the weight of a digit, where that is below the bound. A weight below it is multiplied by 35 at most, so 32 bits hold each step.
fn moved(i: u32, d: u32, w: u32) -> Option<u32>
    requires { (i < 0x4400000) × (d < 36) }
    ensures { MatchOption result (0x4400000 ≤ i + d * w) (λ r. (r ≡ i + d * w) × (r < 0x4400000)) }
{
    if d == 0 {
        return Some(i);
    }
    if w >= BOUND {
        return None;
    }
    let sum = i + d * w;
    (sum < BOUND).then_some(sum)
}

fn octet(c: u8, s: Reader, out: &mut [u32; 64]) -> Option<Reader>
    requires { Bounded s × (s.len < 63) × (s.k < 0x10000) }
    ensures { IfSome result (λ r. Bounded r × (r.len ≤ s.len + 1) × (r.k ≤ s.k + 36))
        × (read result out.new ≡ Decoding.octet c (read (Some s) out.old)) }
{
    let d = value(c)?;
    let i = moved(s.i, d, s.w)?;
    let t = threshold(s.k, s.bias);
    if d < t {
        return place(s, i, out);
    }
    Some(Reader {
        i,
        w: s.w * (BASE - t),
        k: s.k + BASE,
        ..s
    })
}

fn octets(e: &[u8], mut s: Reader, out: &mut [u32; 64]) -> Option<Reader>
    requires { Bounded s × (s.k ≤ 36) × (s.len + length e.now ≤ 63) }
    ensures { IfSome result Bounded
        × (read result out.new ≡ Decoding.octets e.now (read (Some s) out.old)) }
{
    for &c in e {
        s = octet(c, s, out)?;
    }
    Some(s)
}

fn last_delimiter(e: &[u8]) -> Option<usize>
    ensures { MatchOption result (AllWithin (λ c. c ≢ 45) e.now 0 (length e.now))
        (λ j. (j < length e.now) × HoldsAt (λ c. c ≡ 45) e.now j × AllWithin (λ c. c ≢ 45) e.now (j + 1) (length e.now)) }
{
    e.iter().rposition(|c| *c == b'-')
}

// What is before the last delimiter, and what is after it.
fn parts(e: &[u8]) -> (&[u8], &[u8])
    ensures { let k = Decoding.last_delimiter 0 0 e.now in (result.0.now ≡ take (k - 1) e.now) × (result.1.now ≡ drop k e.now) }
{
    match last_delimiter(e) {
        Some(j) => (&e[..j], &e[j + 1..]),
        None => (&e[..0], e),
    }
}

fn widen(e: &[u8], out: &mut [u32; 64])
    requires { length e.now ≤ 64 }
    ensures { take (length e.now) out.new ≡ e.now }
{
    for (j, octet) in e.iter().enumerate() {
        out[j] = u32::from(*octet);
    }
}

// The label, which stands in the output.
fn procedure<'a>(e: &[u8], out: &'a mut [u32; 64]) -> Option<&'a [u32]>
    requires { length e.now ≤ 63 }
    ensures { IfSome result (λ l. length l.now ≤ 63) × (Decoding.decode e.now ≡ answer result) }
{
    let (basic, integers) = parts(e);
    widen(basic, out);
    let first = Reader {
        n: INITIAL_N,
        bias: INITIAL_BIAS,
        len: basic.len(),
        oldi: 0,
        i: 0,
        w: 1,
        k: BASE,
    };
    let s = octets(integers, first, out)?;
    (s.w == 1).then_some(&out[..s.len])
}

// Is `low` the encoding of l?
fn encodes(l: &[u32], low: &[u8]) -> bool
    requires { (length l.now ≤ 63) × (length low.now ≤ 63) }
    ensures { result ≡ Decoding.encodes l.now low.now }
{
    match ace(l) {
        Some(text) => text.as_slice() == low,
        None => false,
    }
}

// The label that the octets `low`, in lower case, encode; it stands in the output.
pub(crate) fn found<'a>(low: &[u8], out: &'a mut [u32; 64]) -> Option<&'a [u32]>
    requires { length low.now ≤ 63 }
    ensures { IfSome result (λ l. length l.now ≤ 63) × (Decoding.found low.now ≡ answer result) }
{
    if low.len() < 4 {
        return None;
    }
    let label = procedure(&low[4..], out)?;
    let same = encodes(label, low);
    same.then_some(label)
}
