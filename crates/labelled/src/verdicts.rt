// What is asked of the labels of a name's form, one after the other: 5 and 6, the leftmost label, the last, the middle one.
ghost use Rattle.std.specs.Prelude.{◌≡◌, length, map};
ghost use Rattle.rules.specs.Labels.{labels};
ghost use Rattle.rules.specs.Rules.{by_labels};
ghost use Rattle.rules.specs.Verdicts.{verdict_told};
ghost use Rattle.rules.specs.Editions.{has_prefectures, permits};
ghost use Rattle.labelled.specs.Cuts.{MayBe};

use crate::cuts::label_ends;
use crate::{Cut, OF_NAME};
use characters::Edition;
use endings::{is_jp, is_prefecture};
use labels::label_rule_with;
use refusals::{Refusal, Refused};
use rules::Class;

// The rules of the labels of a name, 6 to 12 and 17, where there are two, or three and the edition has prefecture names.
fn labels_rule(edition: &Edition, labels: &[&[u32]]) -> Result<Class, Refused>
    requires { MayBe edition.now.number (length labels.now) }
    ensures { verdict_told result ≡ by_labels (permits edition.now) (map (λ label. label.now) labels.now) }
{
    if let Some(place) = labels.iter().position(|label| label.is_empty()) {
        return Err(Refusal::EmptyLabel.at(place));
    }
    label_rule_with(edition, labels[0], OF_NAME, 0)?;
    if !is_jp(labels[labels.len() - 1]) {
        return Err(Refusal::NotJp.at(0));
    }
    if labels.len() == 2 {
        return Ok(Class::General);
    }
    if !is_prefecture(edition.number, labels[1]) {
        return Err(Refusal::NotPrefecture.at(0));
    }
    Ok(Class::Prefecture)
}

// Editions 1 and 2 have no prefecture names.
#[tactic(auto, unfolding(lists::specs::Tests::within))]
fn has_prefectures(edition: u32) -> bool
    ensures { result ≡ has_prefectures edition }
{
    !matches!(edition, 1..=2)
}

// The rules of the labels of a form, 5 to 12 and 17.
#[tactic(auto, using(crate::proofs::Cutting::two_within, crate::proofs::Cutting::three_first, crate::proofs::Cutting::three_within))]
pub fn name_rules_with(edition: &Edition, form: &[u32]) -> Result<Class, Refused>
    ensures { verdict_told result ≡ by_labels (permits edition.now) (labels form.now) }
{
    match label_ends(form) {
        Cut::Two(a) => labels_rule(edition, &[&form[..a], &form[a + 1..]]),
        Cut::Three(a, b) if has_prefectures(edition.number) => {
            labels_rule(edition, &[&form[..a], &form[a + 1..b], &form[b + 1..]])
        }
        _ => Err(Refusal::LabelCount.at(0)),
    }
}
