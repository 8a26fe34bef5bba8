// The same calls on a name in UTF-8, and the answer line to a line of a batch.
ghost use Rattle.std.specs.Prelude.{◌≡◌};
ghost use Rattle.lists.specs.Front.{Puts};
ghost use Rattle.rules.specs.Editions.{edition_of, today};
ghost use Rattle.names.specs.Calls.{Checks, AsciiForms};
ghost use Rattle.hosts.specs.Hosts.{HostForms};
ghost use Rattle.answer.specs.Answer.{answer_to};
ghost use Rattle.sagebasket.specs.Outside.{unnamed, of_checked, of_ascii_form, of_host_form, Tells, OfUtf8};
ghost use Rattle.sagebasket.specs.Steps.{Reads};

use crate::numbers::tell_refusal;
use crate::telling::{tell_ascii, tell_check, tell_host};
use refusals::Refusal;

const NOT_UTF8: Refusal = Refusal::BadLine;

// How many code points of octets in UTF-8 were read, at most 257: with more than 256 the rules look no further.
fn read_utf8(octets: &[u8], text: &mut [u32; 257]) -> Option<usize>
    ensures { Reads octets.now text.new result }
{
    let count = utf8::decode(octets, text)?;
    Some(count.min(257))
}

// Tells that octets are not UTF-8.
fn tell_not_utf8(answer: &mut [u32; 12]) -> u32
    ensures { (answer.new ≡ unnamed 16 0 0) × (result ≡ 16) }
{
    tell_refusal(NOT_UTF8.at(0), 0, answer)
}

// The check of a name in UTF-8; 16 where the octets are not UTF-8.
#[unsafe(no_mangle)]
pub extern "C" fn sagebasket_check_utf8(
    edition: u32,
    name: &[u8],
    form: &mut [u32; 256],
    answer: &mut [u32; 12],
) -> u32
    ensures { OfUtf8 name.now (λ text. Tells of_checked (Checks (edition_of edition) text form.old form.new) answer.new result) form.old form.new answer.new result }
{
    let mut text = [0; 257];
    match read_utf8(name, &mut text) {
        Some(count) => tell_check(edition, &text[..count], form, answer),
        None => tell_not_utf8(answer),
    }
}

// The whole ASCII form of a name in UTF-8; 16 likewise.
#[unsafe(no_mangle)]
pub extern "C" fn sagebasket_to_ascii_utf8(
    edition: u32,
    name: &[u8],
    ascii: &mut [u8; 192],
    answer: &mut [u32; 12],
) -> u32
    ensures { OfUtf8 name.now (λ text. Tells of_ascii_form (AsciiForms (edition_of edition) text ascii.old ascii.new) answer.new result) ascii.old ascii.new answer.new result }
{
    let mut text = [0; 257];
    match read_utf8(name, &mut text) {
        Some(count) => tell_ascii(edition, &text[..count], ascii, answer),
        None => tell_not_utf8(answer),
    }
}

// The ASCII form of a host name in UTF-8; 16 likewise.
#[unsafe(no_mangle)]
pub extern "C" fn sagebasket_host_to_ascii_utf8(
    name: &[u8],
    ascii: &mut [u8; 255],
    answer: &mut [u32; 12],
) -> u32
    ensures { OfUtf8 name.now (λ text. Tells of_host_form (HostForms today text ascii.old ascii.new) answer.new result) ascii.old ascii.new answer.new result }
{
    let mut text = [0; 257];
    match read_utf8(name, &mut text) {
        Some(count) => tell_host(&text[..count], ascii, answer),
        None => tell_not_utf8(answer),
    }
}

// The answer line that `desk` writes for a line, with its LF; how many octets it has.
#[unsafe(no_mangle)]
pub extern "C" fn sagebasket_line(line: &[u8], out: &mut [u8; 256]) -> u32
    ensures { Puts (answer_to today line.now) out.old out.new 0 result }
{
    let kanji = characters::kanji_table();
    answer::answer_with(kanji, line, out).unwrap_or(0) as u32
}
