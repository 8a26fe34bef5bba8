// The usual name: a label that holds only what a label may, and ".jp". It is its own normal form, and what is put for it stays.
ghost use Rattle.std.specs.Prelude.{◌≡◌, false, ◌++◌, ◌≤◌, length};
ghost use Rattle.std.specs.Option.{MatchOption};
ghost use Rattle.rules.specs.Editions.{permits};
ghost use Rattle.names.specs.Calls.{AsciiForms, ascii_told};
ghost use Rattle.names.specs.Steps.{UsualLabel, EndsInJp, dot_jp, ends_in_jp};

use crate::AsciiName;
use crate::whole::put_label;
use characters::Edition;
use labelled::OF_NAME;
use labels::{any_kind, known_rule_with};
use refusals::{Refusal, Refused};
use rules::{Class, Kinds};

const DOT_JP: [u32; 3] = [0x2E, 0x6A, 0x70];

// What stands before ".jp", in a text of 4 to 256 code points that ends in it.
pub(crate) fn before_jp(text: &[u32]) -> Option<&[u32]>
    ensures { MatchOption result (ends_in_jp text.now ≡ false) (λ label. EndsInJp text.now label.now) }
{
    if !matches!(text.len(), 4..=256) {
        return None;
    }
    text.strip_suffix(&DOT_JP)
}

// The ASCII form of such a label, of which it is known what kinds it holds, and ".jp": of the rules only 7 to 10 and 17 can apply. Row 14 is
// answered as the contract lists it, though it never comes (proofs/Coded).
pub(crate) fn usual_name(
    edition: &Edition,
    label: &[u32],
    kinds: Kinds,
    out: &mut [u8],
) -> Result<AsciiName, Refused>
    requires { UsualLabel (permits edition.now) label.now kinds × (192 ≤ length out.old) }
    ensures { AsciiForms (permits edition.now) (label.now ++ dot_jp) out.old out.new (ascii_told result) }
{
    known_rule_with(edition, label, any_kind(kinds), OF_NAME, 0)?;
    let Some(at) = put_label(edition, label, out, 0) else {
        return Err(Refusal::Over63.at(0));
    };
    out[at..at + 3].copy_from_slice(b".jp");
    Ok(AsciiName {
        class: Class::General,
        kinds,
        length: at + 3,
    })
}
