// What coder and decoder share: the thresholds of digits, and the adaptation of the bias.
ghost use Rattle.std.specs.Prelude.{◌*◌, ◌≤◌, ◌<◌, ◌≡◌};
ghost use Rattle.punycode.specs.Punycode;

// The parameter values of RFC 3492, section 5.
pub(crate) const BASE: u32 = 36;

const TMIN: u32 = 1;

const TMAX: u32 = 26;

const SKEW: u32 = 38;

const DAMP: u32 = 700;

pub(crate) const INITIAL_BIAS: u32 = 72;

pub(crate) const INITIAL_N: u32 = 0x80;

// What section 6.1 makes of them.
const SPAN: u32 = BASE - TMIN;

const STEEP: u32 = SPAN * TMAX / 2;

const SLOPE: u32 = SPAN + 1;

// One more than the largest code point.
pub(crate) const LIMIT: u32 = 0x110000;

// 64 times the limit: above every delta of a label that is encoded.
pub(crate) const BOUND: u32 = 0x4400000;

#[tactic(auto, unfolding(crate::specs::Punycode::threshold))]
pub(crate) fn threshold(k: u32, bias: u32) -> u32
    ensures { (result ≡ Punycode.threshold k bias) × (1 ≤ result) × (result ≤ 26) }
{
    if k <= bias {
        TMIN
    } else {
        (k - bias).min(TMAX)
    }
}

#[tactic(auto, unfolding(crate::specs::Punycode::damped))]
fn damped(delta: u32, first: bool) -> u32
    ensures { (result ≡ Punycode.damped delta first) × (2 * result ≤ delta) }
{
    if first { delta / DAMP } else { delta / 2 }
}

fn scaled(delta: u32) -> u32
    requires { delta < 0x4400000 }
    ensures { result ≡ Punycode.adapt_loop delta 0 delta }
{
    let mut d = delta;
    let mut k = 0;
    while d > STEEP {
        d /= SPAN;
        k += BASE;
    }
    k + SLOPE * d / (d + SKEW)
}

pub(crate) fn adapt(delta: u32, points: u32, first: bool) -> u32
    requires { (delta < 0x4400000) × (1 ≤ points) }
    ensures { result ≡ Punycode.adapt delta points first }
{
    let d = damped(delta, first);
    scaled(d + d / points)
}
