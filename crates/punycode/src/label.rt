// Which code points are encoded.
ghost use Rattle.std.specs.Prelude.{◌≡◌};
ghost use Rattle.punycode.specs.Punycode;

// A scalar value of 80 or more, or a letter, digit or hyphen.
#[tactic(auto, unfolding(crate::specs::Punycode::allowed, crate::specs::Punycode::ldh, crate::specs::Punycode::alnum, crate::specs::Punycode::wide, lists::specs::Tests::within))]
pub(crate) fn allowed(c: u32) -> bool
    ensures { result ≡ Punycode.allowed c }
{
    matches!(c, 0x80..=0xD7FF | 0xE000..=0x10FFFF) || matches!(c, 0x61..=0x7A | 0x30..=0x39 | 0x2D)
}
