// The whole ASCII form of a name, each Japanese label encoded, ASCII labels as they are, joined by periods; and the kinds of its leftmost
// label. What the coder does is known by its stated answers alone.
ghost use Rattle.std.specs.Prelude.{◌≡◌, true, not, [], ◌+◌, ◌≤◌, length, get_or};
ghost use Rattle.lists.specs.Tests.{all_of, any_of};
ghost use Rattle.rules.specs.Editions.{edition_of, permits};
ghost use Rattle.rules.specs.Kinds.{kinds_in};
ghost use Rattle.rules.specs.Labels.{labels};
ghost use Rattle.rules.specs.Permits.{label_char};
ghost use Rattle.ascii.specs.Ascii.{ascii_label, ascii_form, uncoded, writable};
ghost use Rattle.names.specs.Calls.{AsciiForms, ascii_told};
ghost use Rattle.names.specs.Steps.{Writable, PutsWhere, PutsOrKeeps};

use crate::AsciiName;
use crate::editions::is_edition;
use crate::judges::judge_into;
use crate::usual::{before_jp, usual_name};
use ascii::label_form;
use characters::Edition;
use labels::{held_with, label_end};
use refusals::{Refusal, Refused};
use rules::Kinds;

// Puts the ASCII form of a label from `at` on, and tells the place past it, where the coder takes the label.
pub(crate) fn put_label(
    edition: &Edition,
    label: &[u32],
    out: &mut [u8],
    at: usize,
) -> Option<usize>
    requires { (writable (permits edition.now) label.now ≡ true) × (at + 63 ≤ length out.old) }
    ensures { PutsOrKeeps (not (uncoded (permits edition.now) label.now)) (ascii_label (permits edition.now) label.now) out.old out.new at result }
{
    let length = label_form(label, &mut out[at..]).ok()?;
    Some(at + length)
}

// Puts the ASCII form of a name, label by label, and tells the place past it, where the coder takes every label.
fn put_labels(edition: &Edition, form: &[u32], out: &mut [u8]) -> Option<usize>
    requires { Writable (permits edition.now) form.now (length out.old) }
    ensures { PutsWhere (not (any_of (uncoded (permits edition.now)) (labels form.now))) (ascii_form (permits edition.now) form.now) out.old out.new 0 result }
{
    let mut from = 0;
    let mut at = 0;
    // A walk by the labels' ends: a period follows each but the last, and its end tells which that is.
    loop {
        let end = label_end(form, from);
        at = put_label(edition, &form[from..end], out, at)?;
        if end >= form.len() {
            return Some(at);
        }
        out[at] = b'.';
        at += 1;
        from = end + 1;
    }
}

// The kinds found in the leftmost label of a form, which holds only what a label may.
fn leftmost_kinds(edition: &Edition, form: &[u32]) -> Kinds
    requires { all_of (label_char (permits edition.now)) (get_or (labels form.now) 0 []) ≡ true }
    ensures { result ≡ kinds_in (permits edition.now) (get_or (labels form.now) 0 []) }
{
    let end = label_end(form, 0);
    held_with(edition, &form[..end]).unwrap()
}

// The ASCII form of any text: its normal form is judged, put into octets and copied.
fn any_name(edition: &Edition, text: &[u32], out: &mut [u8]) -> Result<AsciiName, Refused>
    requires { 192 ≤ length out.old }
    ensures { AsciiForms (permits edition.now) text.now out.old out.new (ascii_told result) }
{
    let mut buffer = [0u32; 256];
    let ruled = judge_into(edition, text, &mut buffer);
    let class = ruled.said?;
    let form = &buffer[..ruled.length];
    let mut octets = [0u8; 192];
    let Some(length) = put_labels(edition, form, &mut octets) else {
        return Err(Refusal::Over63.at(0));
    };
    out[..length].copy_from_slice(&octets[..length]);
    Ok(AsciiName {
        class,
        kinds: leftmost_kinds(edition, form),
        length,
    })
}

// The usual name goes its own way.
pub fn to_ascii_with(edition: &Edition, text: &[u32], out: &mut [u8]) -> Result<AsciiName, Refused>
    ensures { AsciiForms (permits edition.now) text.now out.old out.new (ascii_told result) }
{
    if out.len() < 192 {
        return Err(Refusal::NoRoom.at(0));
    }
    if !is_edition(edition.number) {
        return Err(Refusal::NoEdition.at(0));
    }
    if let Some(label) = before_jp(text)
        && let Some(kinds) = held_with(edition, label)
    {
        return usual_name(edition, label, kinds, out);
    }
    any_name(edition, text, out)
}

// The same by the kanji themselves.
pub fn to_ascii(edition: u32, text: &[u32], out: &mut [u8]) -> Result<AsciiName, Refused>
    ensures { AsciiForms (edition_of edition) text.now out.old out.new (ascii_told result) }
{
    let kanji = characters::kanji_table();
    let edition = Edition {
        kanji,
        number: edition,
    };
    to_ascii_with(&edition, text, out)
}
