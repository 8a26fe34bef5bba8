// What a label holds: whether only what a label may, and which kinds of Japanese characters. Each character is looked at once.
ghost use Rattle.std.specs.Prelude.{◌≡◌};
ghost use Rattle.rules.specs.Editions.{permits};
ghost use Rattle.rules.specs.Kinds.{any_found};
ghost use Rattle.labels.specs.Held.{held_told, held_in};

use characters::{Edition, Kind, is_ascii};
use rules::Kinds;

const NO_KINDS: Kinds = Kinds {
    hiragana: false,
    katakana: false,
    kanji: false,
    sign: false,
};

// Which kinds of Japanese characters a label holds; none are told of one with a character that no label may hold. Below 80 stands the ASCII
// set and nothing Japanese, from 80 on nothing of the ASCII set.
pub fn held_with(edition: &Edition, label: &[u32]) -> Option<Kinds>
    ensures { held_told result ≡ held_in (permits edition.now) label.now }
{
    let mut kinds = NO_KINDS;
    for c in label {
        if *c < 0x80 {
            if !is_ascii(*c) {
                return None;
            }
            continue;
        }
        match edition.kind(*c)? {
            Kind::Hiragana => kinds.hiragana = true,
            Kind::Katakana => kinds.katakana = true,
            Kind::Kanji => kinds.kanji = true,
            Kind::Sign => kinds.sign = true,
        }
    }
    Some(kinds)
}

// Is any kind found?
#[tactic(auto, unfolding(rules::specs::Kinds::any_found))]
pub fn any_kind(kinds: Kinds) -> bool
    ensures { result ≡ any_found kinds }
{
    kinds.hiragana || kinds.katakana || kinds.kanji || kinds.sign
}
