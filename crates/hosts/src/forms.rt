// The ASCII form of a host: each Japanese label encoded, ASCII labels as they are, joined by periods. The judge has counted its octets; only
// then is one written.
ghost use Rattle.std.specs.Prelude.{◌≡◌, length};
ghost use Rattle.lists.specs.Front.{Puts};
ghost use Rattle.refusals.specs.Refusals.{filled};
ghost use Rattle.rules.specs.Editions.{permits, today, today_with};
ghost use Rattle.ascii.specs.Ascii.{ascii_label, ascii_form};
ghost use Rattle.hosts.specs.Hosts.{HostForms};
ghost use Rattle.hosts.specs.Steps.{Ready, AllReady};

use crate::ROOM;
use crate::judges::judge_into;
use crate::labelled::is_period;
use ascii::label_form;
use characters::Edition;
use refusals::{Refusal, Refused};
use rules::IN_FORCE;

// Puts the ASCII form of a label from `at` on, by way of a scratch: the call for one label asks for 63 octets of room, which there may not
// be near the buffer's end. Returns the place past it. The judge knows already that the coder takes the label.
fn put_label(edition: &Edition, label: &[u32], out: &mut [u8], at: usize) -> usize
    requires { Ready (permits edition.now) label.now at (length out.old) }
    ensures { Puts (ascii_label (permits edition.now) label.now) out.old out.new at result }
{
    let mut scratch = [0; 63];
    let put = label_form(label, &mut scratch).unwrap();
    let end = at + put;
    out[at..end].copy_from_slice(&scratch[..put]);
    end
}

// Puts the ASCII form of a host, label by label, and returns its length.
fn put_labels(edition: &Edition, form: &[u32], out: &mut [u8]) -> usize
    requires { AllReady (permits edition.now) form.now (length out.old) }
    ensures { Puts (ascii_form (permits edition.now) form.now) out.old out.new 0 result }
{
    let mut at = 0;
    for (i, label) in form.split(is_period).enumerate() {
        if i > 0 {
            out[at] = 0x2E;
            at += 1;
        }
        at = put_label(edition, label, out, at);
    }
    at
}

pub fn to_ascii_with(kanji: &[u32], text: &[u32], out: &mut [u8]) -> Result<usize, Refused>
    ensures { HostForms (today_with kanji.now) text.now out.old out.new (filled result) }
{
    if out.len() < ROOM {
        return Err(Refusal::NoRoom.at(0));
    }
    let edition = Edition {
        kanji,
        number: IN_FORCE,
    };
    let mut form = [0; 256];
    let ruled = judge_into(&edition, text, &mut form);
    ruled.said?;
    Ok(put_labels(&edition, &form[..ruled.length], out))
}

// The same by the kanji themselves.
pub fn to_ascii(text: &[u32], out: &mut [u8]) -> Result<usize, Refused>
    ensures { HostForms today text.now out.old out.new (filled result) }
{
    let kanji = characters::kanji_table();
    to_ascii_with(kanji, text, out)
}
