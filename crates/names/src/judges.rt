// The judge: what the rules say of a text, with where its labels stand and its normal form. The check asks it, the live check, and the
// whole ASCII form of all but the usual name.
ghost use Rattle.std.specs.Prelude.{◌≡◌, ◌≤◌, length};
ghost use Rattle.rules.specs.Editions.{edition_of, permits};
ghost use Rattle.rules.specs.Verdicts.{verdict_told};
ghost use Rattle.fronts.specs.Fronts.{front_told};
ghost use Rattle.names.specs.Calls.{judge_told, judged};
ghost use Rattle.names.specs.Steps.{Says, ruled_told, Judges};

use crate::Accepted;
use crate::editions::is_edition;
use crate::places::label_places;
use characters::Edition;
use fronts::{Front, Judgement, front_with};
use labelled::name_rules_with;
use refusals::{Refusal, Refused};
use rules::Class;

// What the rules say of a text, and how long its normal form is.
#[derive(Clone, Copy)]
pub(crate) struct Ruled {
    pub said: Result<Class, Refused>,
    pub length: usize,
}

// What the rules say of a text, 25, 2 to 12 and 17, by what its front told and by the form that stands in a buffer.
fn class_by_front(
    edition: &Edition,
    front: Result<Front, Refused>,
    form: &[u32],
) -> Result<Class, Refused>
    requires { (front_told front).length ≤ length form.now }
    ensures { Says (permits edition.now) form.now (front_told front) (verdict_told result) }
{
    if !is_edition(edition.number) {
        return Err(Refusal::NoEdition.at(0));
    }
    let front = front?;
    if let Some(place) = front.unfit {
        return Err(Refusal::Unfit.at(place));
    }
    name_rules_with(edition, &form[..front.length])
}

// The rules on a text; its normal form is left at the start of the lent buffer, also with a number that is no edition.
pub(crate) fn judge_into(edition: &Edition, text: &[u32], form: &mut [u32]) -> Ruled
    requires { 256 ≤ length form.old }
    ensures { Judges (permits edition.now) text.now form.old form.new (ruled_told result) }
{
    let front = front_with(edition, text, form);
    Ruled {
        said: class_by_front(edition, front, form),
        length: front.map_or(0, |front| front.length),
    }
}

// The same with the buffer in the result, and where the labels of an accepted name stand.
pub fn judge_with(edition: &Edition, text: &[u32]) -> Judgement<Accepted>
    ensures { judge_told result ≡ judged (permits edition.now) text.now }
{
    let mut form = [0u32; 256];
    let ruled = judge_into(edition, text, &mut form);
    let said = match ruled.said {
        Ok(class) => Ok(Accepted {
            class,
            labels: label_places(&form[..ruled.length]),
        }),
        Err(refused) => Err(refused),
    };
    Judgement {
        said,
        form,
        length: ruled.length,
    }
}

// The same by the kanji themselves.
pub fn judge(edition: u32, text: &[u32]) -> Judgement<Accepted>
    ensures { judge_told result ≡ judged (edition_of edition) text.now }
{
    let kanji = characters::kanji_table();
    let edition = Edition {
        kanji,
        number: edition,
    };
    judge_with(&edition, text)
}
