// First and second wish: which of two texts is accepted first, what the check says of each, and the part of that one before its first
// separator, as the applicant typed it. The calls take any two texts, are lent no buffer, write nothing and go by the edition in force. The
// part is no copy: it is the beginning of one of the two slices that were lent. Their meaning is defined in specs/Wishes, over the rules; that
// number and place are the check's is proofs/Winning, and that the part, normalised, is the leftmost label proofs/Leftmost. A call
// `.._with` is lent the table of kanji; the call without names it itself.
#![tactic(auto)]

ghost use Rattle.std.specs.Prelude.{◌≡◌, Some};
ghost use Rattle.refusals.specs.Refusals.{told};
ghost use Rattle.rules.specs.Editions.{permits, today, today_with};
ghost use Rattle.wishes.specs.Wishes.{alone, won_by, won_told, wishes_told, part_length, handed_length, wished, Hands};

use characters::{Edition, replaced};
use names::check_with;
use normal::MOST;
use refusals::Refused;
use rules::IN_FORCE;

const PERIOD: u32 = 0x2E;

// The wishes by their numbers.
#[derive(Clone, Copy, PartialEq, Eq, Debug)]
pub enum Wish {
    First = 1,
    Second = 2,
}

// The number of a wish.
impl From<Wish> for u8 {
    fn from(wish: Wish) -> u8
        ensures { result ≡ won_told (Some wish) }
    {
        wish as u8
    }
}

// Which wish won, if one did, and what the check says of each.
#[derive(Clone, Copy)]
pub struct Wishes {
    pub won: Option<Wish>,
    pub first: Result<(), Refused>,
    pub second: Result<(), Refused>,
}

// What the check says of a text that stands alone, with room enough: what is lent for its normal form.
fn checked_alone(edition: &Edition, text: &[u32], room: &mut [u32; MOST]) -> Result<(), Refused>
    ensures { told result ≡ alone (permits edition.now) text.now }
{
    check_with(edition, text, room)?;
    Ok(())
}

// The first wish is asked before the second.
fn won_by(first: Result<(), Refused>, second: Result<(), Refused>) -> Option<Wish>
    ensures { won_told result ≡ won_by (told first).number (told second).number }
{
    if first.is_ok() {
        Some(Wish::First)
    } else if second.is_ok() {
        Some(Wish::Second)
    } else {
        None
    }
}

// Which wish won, and what the check says of each text as if it stood alone.
pub fn which_won_with(kanji: &[u32], first: &[u32], second: &[u32]) -> Wishes
    ensures { wishes_told result ≡ wished (today_with kanji.now) first.now second.now }
{
    let edition = Edition {
        kanji,
        number: IN_FORCE,
    };
    let mut form = [0; MOST];
    let one = checked_alone(&edition, first, &mut form);
    let two = checked_alone(&edition, second, &mut form);
    Wishes {
        won: won_by(one, two),
        first: one,
        second: two,
    }
}

// The same by the kanji themselves.
pub fn which_won(first: &[u32], second: &[u32]) -> Wishes
    ensures { wishes_told result ≡ wished today first.now second.now }
{
    let kanji = characters::kanji_table();
    which_won_with(kanji, first, second)
}

// How many code points stand before the first separator of a text, as it was typed; all where there is none. A separator is what a period
// replaces.
fn part_length(text: &[u32]) -> usize
    ensures { result ≡ part_length text.now }
{
    text.iter()
        .position(|&c| replaced(c) == PERIOD)
        .unwrap_or(text.len())
}

// How long the part of the wish of this number is, where that won: nothing with 0, where neither did. It takes a number and no `Wish`, since
// it says something of any.
pub fn handed_length(won: u8, first: &[u32], second: &[u32]) -> usize
    ensures { result ≡ handed_length won first.now second.now }
{
    match won {
        0 => 0,
        2 => part_length(second),
        _ => part_length(first),
    }
}

// The part before the first separator, out of the wish that won: the beginning of one of the two slices. Where neither won, the empty part
// at the start of the first. The second text is looked at only where the first is refused.
pub fn wished_part_with<'a>(kanji: &[u32], first: &'a [u32], second: &'a [u32]) -> &'a [u32]
    ensures { Hands (today_with kanji.now) first.entry second.entry result }
{
    let edition = Edition {
        kanji,
        number: IN_FORCE,
    };
    let mut form = [0; MOST];
    if checked_alone(&edition, first, &mut form).is_ok() {
        let n = part_length(first);
        return &first[..n];
    }
    if checked_alone(&edition, second, &mut form).is_ok() {
        let n = part_length(second);
        return &second[..n];
    }
    &first[..0]
}

// The same by the kanji themselves.
pub fn wished_part<'a>(first: &'a [u32], second: &'a [u32]) -> &'a [u32]
    ensures { Hands today first.entry second.entry result }
{
    let kanji = characters::kanji_table();
    wished_part_with(kanji, first, second)
}
