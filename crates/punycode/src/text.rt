// The text that the coder writes.
ghost use Rattle.std.specs.Prelude.{ℕ, ◌≤◌, List, [], ◌∷◌, ◌++◌, ◌≡◌, take};

use std::marker::Model;

// The first 64 octets of what is written: 63 or fewer are the whole.
#[derive(Drop)]
pub(crate) struct Text {
    octets: [u8; 64],
    len: usize,
}

impl Model for Text {
    ghost Value = { List ℕ };

    ghost view = { λ t. take t.len t.octets };

    ghost invariant = { λ t. t.len ≤ 64 };
}

impl Text {
    // "xn--".
    pub(crate) fn new() -> Text
        ensures { result ≡ 120 ∷ 110 ∷ 45 ∷ 45 ∷ [] }
    {
        let mut octets = [0; 64];
        octets[..4].copy_from_slice(b"xn--");
        Text { octets, len: 4 }
    }

    pub(crate) fn push(&mut self, octet: u8)
        ensures { self.new ≡ take 64 (self.old ++ octet ∷ []) }
    {
        if self.len < 64 {
            self.octets[self.len] = octet;
            self.len += 1;
        }
    }

    pub(crate) fn as_slice(&self) -> &[u8]
        ensures { result.now ≡ self.now }
    {
        &self.octets[..self.len]
    }
}
