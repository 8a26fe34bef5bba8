// The judge: what the rules of a host say of a text, with its normal form. The call for the ASCII form asks it, and the live check.
ghost use Rattle.std.specs.Prelude.{◌≡◌, ◌≤◌, length};
ghost use Rattle.rules.specs.Editions.{permits, today, today_with};
ghost use Rattle.hosts.specs.Hosts.{host_told, host_judged};
ghost use Rattle.hosts.specs.Steps.{Judges, ruled_told};

use crate::labelled::host_rules;
use characters::Edition;
use fronts::{Judgement, front_with};
use refusals::{Refusal, Refused};
use rules::IN_FORCE;

// What the rules say of a text, and how long its normal form is.
#[derive(Drop)]
pub(crate) struct Ruled {
    pub said: Result<(), Refused>,
    pub length: usize,
}

// The rules on a text, 2 to 19; its normal form is left at the start of the lent buffer.
pub(crate) fn judge_into(edition: &Edition, text: &[u32], form: &mut [u32]) -> Ruled
    requires { 256 ≤ length form.old }
    ensures { Judges (permits edition.now) text.now form.old form.new (ruled_told result) }
{
    let front = match front_with(edition, text, form) {
        Ok(front) => front,
        Err(refused) => {
            return Ruled {
                said: Err(refused),
                length: 0,
            };
        }
    };
    let length = front.length;
    let said = match front.unfit {
        Some(place) => Err(Refusal::Unfit.at(place)),
        None => host_rules(edition, &form[..length]),
    };
    Ruled { said, length }
}

// The same with the buffer in the result. The table of kanji is lent.
pub fn judge_with(kanji: &[u32], text: &[u32]) -> Judgement<()>
    ensures { host_told result ≡ host_judged (today_with kanji.now) text.now }
{
    let edition = Edition {
        kanji,
        number: IN_FORCE,
    };
    let mut form = [0; 256];
    let Ruled { said, length } = judge_into(&edition, text, &mut form);
    Judgement { said, form, length }
}

// The same by the kanji themselves.
pub fn judge(text: &[u32]) -> Judgement<()>
    ensures { host_told result ≡ host_judged today text.now }
{
    let kanji = characters::kanji_table();
    judge_with(kanji, text)
}
