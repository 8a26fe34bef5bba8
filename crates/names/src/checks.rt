// The check: the judge, and where it accepts the normal form is written and where its labels stand is told.
ghost use Rattle.rules.specs.Editions.{edition_of, permits};
ghost use Rattle.names.specs.Calls.{Checks, check_told};

use crate::Formed;
use crate::judges::judge_into;
use crate::places::label_places;
use characters::Edition;
use refusals::{Refusal, Refused};

pub fn check_with(edition: &Edition, text: &[u32], out: &mut [u32]) -> Result<Formed, Refused>
    ensures { Checks (permits edition.now) text.now out.old out.new (check_told result) }
{
    if out.len() < 256 {
        return Err(Refusal::NoRoom.at(0));
    }
    let mut buffer = [0u32; 256];
    let ruled = judge_into(edition, text, &mut buffer);
    let class = ruled.said?;
    let form = &buffer[..ruled.length];
    out[..ruled.length].copy_from_slice(form);
    Ok(Formed {
        class,
        labels: label_places(form),
        length: ruled.length,
    })
}

// The same by the kanji themselves.
pub fn check(edition: u32, text: &[u32], out: &mut [u32]) -> Result<Formed, Refused>
    ensures { Checks (edition_of edition) text.now out.old out.new (check_told result) }
{
    let kanji = characters::kanji_table();
    let edition = Edition {
        kanji,
        number: edition,
    };
    check_with(&edition, text, out)
}
