// What every family of names asks of a text first: its normal form, which 2 and 3 may refuse, and the first unfit character of that form,
// which brings 4. The call takes any edition, any text and any lent buffer and says all of its result; a refusal writes nothing. 25 is not
// among its numbers: whether there is such an edition is asked by who refuses with it. Its meaning is defined in specs/Fronts,
// over the rows 2 to 4 of `rules` (specs/Rules: front_rows).
#![tactic(auto)]

ghost use Rattle.rules.specs.Editions.{permits};
ghost use Rattle.fronts.specs.Fronts.{Fronts, front_told};

use characters::Edition;
use labels::first_unfit_with;
use refusals::Refused;

// How long the normal form is that is written, and the place in the text of its first unfit character.
#[derive(Clone, Copy)]
pub struct Front {
    pub length: usize,
    pub unfit: Option<usize>,
}

// What a judge answers: what is said of a text, and its normal form, which is shown with a refusal too: so many characters at the start of
// the array, with zeros past them.
#[derive(Clone, Copy)]
pub struct Judgement<T> {
    pub said: Result<T, Refused>,
    pub form: [u32; 256],
    pub length: usize,
}

// The normal form is written where there is one. A character that is unfit does not hinder that: who shows the form shows it with 4 too.
pub fn front_with(edition: &Edition, text: &[u32], form: &mut [u32]) -> Result<Front, Refused>
    ensures { Fronts (permits edition.now) text.now form.old form.new (front_told result) }
{
    let length = normal::normal_form(text, form)?;
    let unfit = first_unfit_with(edition, &form[..length]).and_then(|k| normal::place_of(text, k));
    Ok(Front { length, unfit })
}
