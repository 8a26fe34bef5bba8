// Yes or no for the search box: is a text acceptable, and how many of its code points were read? The call takes any text, is lent no buffer
// and goes by the edition in force. It looks at the length, then reads from the left and stops at the first code point that brings 4. Its
// meaning is defined in specs/Searches, over the rules; that its yes is the check's 0 is proofs/Checking, that what it did not read plays no
// part proofs/Unread, and that no earlier code point brings 4 proofs/Earliest. The call `.._with` is lent the table of kanji; the call without names it itself.
#![tactic(auto)]

ghost use Rattle.std.specs.Prelude.{◌≡◌, ◌≤◌, true, eqb, length, drop};
ghost use Rattle.lists.specs.Tests.{within};
ghost use Rattle.characters.specs.Replace.{replace};
ghost use Rattle.normal.specs.Normal.{normal_form};
ghost use Rattle.rules.specs.Labels.{labels};
ghost use Rattle.rules.specs.Rules.{by_labels};
ghost use Rattle.rules.specs.Editions.{permits, today, today_with};
ghost use Rattle.searches.specs.Searches.{searched};
ghost use Rattle.searches.specs.Steps.{inside, stop_from, Stops};

use characters::{Edition, joined, replaced};
use labelled::name_rules_with;
use labels::is_unfit_with;
use normal::{MOST, normal_form};
use rules::IN_FORCE;

// Whether the text is acceptable, and how many code points were read: both are told of every text.
#[derive(Clone, Copy)]
pub struct Searched {
    pub yes: bool,
    pub read: usize,
}

const UNREAD: Searched = Searched {
    yes: false,
    read: 0,
};

// Is a text of n code points read at all? Not where its length alone refuses it.
fn is_read(n: usize) -> bool
    ensures { result ≡ within 1 256 n }
{
    (1..=MOST).contains(&n)
}

// From `from` on, the index of the first code point that is unfit and joins nothing before it. A mark is unfit by itself, so only of what is
// unfit is it asked whether it joins `last`, which stands before it where anything does.
fn first_stop(edition: &Edition, text: &[u32], from: usize) -> Option<usize>
    requires { from ≤ length text.now }
    ensures { result ≡ inside (length text.now) (stop_from (permits edition.now) 0 from (drop from text.now)) }
{
    let mut last = None;
    for (i, &code) in text[from..].iter().enumerate() {
        let c = replaced(code);
        if !is_unfit_with(edition, c) {
            last = Some(c);
            continue;
        }
        last = last.and_then(|base| joined(base, c));
        if last.is_none() {
            return Some(from + i);
        }
    }
    None
}

// Do the rules of labels accept the normal form?
fn is_name(edition: &Edition, text: &[u32]) -> bool
    requires { within 1 256 (length text.now) ≡ true }
    ensures { result ≡ eqb (by_labels (permits edition.now) (labels (normal_form text.now))).number 0 }
{
    let mut form = [0; MOST];
    match normal_form(text, &mut form) {
        Ok(length) => name_rules_with(edition, &form[..length]).is_ok(),
        Err(_) => false,
    }
}

// What is answered of a text that is read up to `stop`, or to its end. Only then is it put into normal form.
fn answered(edition: &Edition, text: &[u32], stop: Option<usize>) -> Searched
    requires { Stops (permits edition.now) text.now stop }
    ensures { result ≡ searched (permits edition.now) text.now }
{
    match stop {
        Some(stop) => Searched {
            yes: false,
            read: stop + 1,
        },
        None => Searched {
            yes: is_name(edition, text),
            read: text.len(),
        },
    }
}

// Is the text acceptable, and how many of its code points were read? The length is asked before any of them.
pub fn acceptable_with(kanji: &[u32], text: &[u32]) -> Searched
    ensures { result ≡ searched (today_with kanji.now) text.now }
{
    if !is_read(text.len()) {
        return UNREAD;
    }
    let edition = Edition {
        kanji,
        number: IN_FORCE,
    };
    answered(&edition, text, first_stop(&edition, text, 0))
}

// Does the code point become one among which the kanji are?
fn may_be_kanji(code: u32) -> bool
    ensures { result ≡ within 0x4E00 0x9FA0 (replace code) }
{
    (0x4E00..=0x9FA0).contains(&replaced(code))
}

// The same by the kanji themselves. Their table is long, so none is lent until a kanji may have been met, or the end.
pub fn acceptable(text: &[u32]) -> Searched
    ensures { result ≡ searched today text.now }
{
    if !is_read(text.len()) {
        return UNREAD;
    }
    let tableless = Edition {
        kanji: &[],
        number: IN_FORCE,
    };
    let stop = first_stop(&tableless, text, 0);
    if let Some(at) = stop {
        if !may_be_kanji(text[at]) {
            return Searched {
                yes: false,
                read: at + 1,
            };
        }
    }
    let kanji = characters::kanji_table();
    let edition = Edition {
        kanji,
        number: IN_FORCE,
    };
    let stop = match stop {
        Some(at) => first_stop(&edition, text, at),
        None => None,
    };
    answered(&edition, text, stop)
}
