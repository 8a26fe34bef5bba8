// Whether a text may yet become a name of an edition, as a call: the labels of its normal form are asked, the last of them as unfinished. The
// call takes the number of an edition, any number, and any text. Its meaning is defined in `rules` (specs/Hopeful). The call `.._with` is lent
// the table of kanji, in an edition; the call without names it itself.
#![tactic(auto)]

ghost use Rattle.std.specs.Prelude.{◌≡◌, ◌∷◌, [], ◌++◌};
ghost use Rattle.rules.specs.Labels.{labels};
ghost use Rattle.rules.specs.Editions.{edition_of, permits};
ghost use Rattle.rules.specs.Hopeful.{leftmost, grows, hopeful};

use characters::Edition;
use endings::{begins_jp, begins_prefecture, is_prefecture};
use fronts::front_with;
use labelled::{Cut, OF_NAME, label_ends};
use labels::label_rule_with;
use names::is_edition;

// Fit as a leftmost label?
fn is_leftmost(edition: &Edition, label: &[u32]) -> bool
    ensures { result ≡ leftmost (permits edition.now) label.now }
{
    label_rule_with(edition, label, OF_NAME, 0).is_ok()
}

// The same with c put after it. A label past 63 is too long already.
#[tactic(auto, using(crate::proofs::Hoping::too_long))]
fn leftmost_plus(edition: &Edition, label: &[u32], c: u32) -> bool
    ensures { result ≡ leftmost (permits edition.now) (label.now ++ c ∷ []) }
{
    let n = label.len();
    if 63 < n {
        return false;
    }
    let mut longer = [0; 64];
    longer[..n].copy_from_slice(label);
    longer[n] = c;
    is_leftmost(edition, &longer[..=n])
}

// One label, unfinished: as it is, with a hiragana more, with a letter more.
#[tactic(auto, using(crate::proofs::Hoping::one_tries))]
fn one_grows(edition: &Edition, label: &[u32]) -> bool
    ensures { result ≡ grows (permits edition.now) (label.now ∷ []) }
{
    is_leftmost(edition, label)
        || leftmost_plus(edition, label, 0x3042)
        || leftmost_plus(edition, label, 0x61)
}

// A leftmost label, and the beginning of "jp" or of a prefecture label.
#[tactic(auto, unfolding(rules::specs::Hopeful::grows, rules::specs::Editions::edition_with))]
fn two_grow(edition: &Edition, left: &[u32], last: &[u32]) -> bool
    ensures { result ≡ grows (permits edition.now) (left.now ∷ last.now ∷ []) }
{
    is_leftmost(edition, left) && (begins_jp(last) || begins_prefecture(edition.number, last))
}

// A leftmost label, a prefecture label, and the beginning of "jp".
#[tactic(auto, unfolding(rules::specs::Hopeful::grows, rules::specs::Permits::middle, rules::specs::Editions::edition_with))]
fn three_grow(edition: &Edition, left: &[u32], middle: &[u32], last: &[u32]) -> bool
    ensures { result ≡ grows (permits edition.now) (left.now ∷ middle.now ∷ last.now ∷ []) }
{
    is_leftmost(edition, left) && is_prefecture(edition.number, middle) && begins_jp(last)
}

// The labels of a form.
#[tactic(auto, using(labelled::proofs::Cutting::two_within, labelled::proofs::Cutting::three_first, labelled::proofs::Cutting::three_within))]
fn form_grows(edition: &Edition, form: &[u32]) -> bool
    ensures { result ≡ grows (permits edition.now) (labels form.now) }
{
    match label_ends(form) {
        Cut::One => one_grows(edition, form),
        Cut::Two(a) => two_grow(edition, &form[..a], &form[a + 1..]),
        Cut::Three(a, b) => three_grow(edition, &form[..a], &form[a + 1..b], &form[b + 1..]),
        Cut::More(..) => false,
    }
}

// May the text, with what is typed after it, yet be accepted by the edition? An empty text may; one past 256 code points may not, and by a
// number that is no edition none may.
pub fn may_become_with(edition: &Edition, text: &[u32]) -> bool
    ensures { result ≡ hopeful (permits edition.now) text.now }
{
    if !is_edition(edition.number) {
        return false;
    }
    if text.is_empty() {
        return true;
    }
    let mut form = [0; 256];
    let Ok(front) = front_with(edition, text, &mut form) else {
        return false;
    };
    front.unfit.is_none() && form_grows(edition, &form[..front.length])
}

// The same by the kanji themselves.
pub fn may_become(edition: u32, text: &[u32]) -> bool
    ensures { result ≡ hopeful (edition_of edition) text.now }
{
    let edition = Edition {
        kanji: characters::kanji_table(),
        number: edition,
    };
    may_become_with(&edition, text)
}
