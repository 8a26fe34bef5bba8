// The answer to a case: the call that the line names is run, and what comes back is printed. Of a pair such as C and c the first is lent the
// table of kanji, and the second names it itself.
ghost use Rattle.std.specs.Prelude.{◌≤◌, length};

use crate::cases::Case;
use crate::lent::Entry;
use crate::printed::{Said, put_flag, put_malformed};
use crate::streams::typed;
use crate::{cases, kinds, label, lent, outside, slices, streams, wishing};
use characters::Edition;
use std::alloc::Global;
use std::io;
use std::io::Write;

// Lends as much of some memory to a call as the case asks for, and prints what the call says and what it changed of it.
fn lend<T: Entry, S: Said, F: FnOnce(&mut [T]) -> S>(
    out: &mut impl Write,
    case: &Case,
    memory: &mut [T],
    call: F,
) -> io::Result<()>
    requires callable { F.IsAlwaysCallable call }
    requires room { case.now.room ≤ length memory.old }
{
    let lent = &mut memory[..case.room];
    lent::fill(lent);
    call(lent).put(out)?;
    lent::put_changed(out, lent)
}

// Lends code points.
fn lend_codes<S: Said, F: FnOnce(&mut [u32]) -> S>(
    out: &mut impl Write,
    case: &Case,
    call: F,
) -> io::Result<()>
    requires callable { F.IsAlwaysCallable call }
    requires room { case.now.room ≤ 300 }
{
    lend(out, case, &mut [0; 300], call)
}

// Lends octets.
fn lend_octets<S: Said, F: FnOnce(&mut [u8]) -> S>(
    out: &mut impl Write,
    case: &Case,
    call: F,
) -> io::Result<()>
    requires callable { F.IsAlwaysCallable call }
    requires room { case.now.room ≤ 300 }
{
    lend(out, case, &mut [0; 300], call)
}

// Prints what a call says. That takes 1 KiB of some, and a function fills all its locals with zeros as it starts: here those of one call alone.
fn tell<S: Said, F: FnOnce() -> S>(out: &mut impl Write, call: F) -> io::Result<()>
    requires { F.IsAlwaysCallable call }
{
    call().put(out)
}

// A call on a name.
fn on_name(edition: &Edition, case: &Case, out: &mut impl Write) -> io::Result<()>
    requires { case.now.room ≤ 300 }
{
    let Edition { kanji, number } = *edition;
    let text = case.numbers.as_slice();
    match case.call {
        b'A' => lend_octets(out, case, |form| names::to_ascii_with(edition, text, form)),
        b'a' => lend_octets(out, case, |form| names::to_ascii(number, text, form)),
        b'C' => lend_codes(out, case, |form| names::check_with(edition, text, form)),
        b'c' => lend_codes(out, case, |form| names::check(number, text, form)),
        b'J' => tell(out, || names::judge_with(edition, text)),
        b'j' => tell(out, || names::judge(number, text)),
        b'L' => tell(out, || typed(number, text).look_with(kanji)),
        b'l' => tell(out, || typed(number, text).look()),
        b'M' => streams::hope(out, edition, text),
        b'S' => put_flag(out, readers::reads_with(kanji, text)),
        b's' => put_flag(out, readers::reads(text)),
        b'Z' => searches::acceptable_with(kanji, text).put(out),
        b'z' => searches::acceptable(text).put(out),
        _ => on_host(edition, case, out),
    }
}

// A call on a host, or on what names and hosts share.
fn on_host(edition: &Edition, case: &Case, out: &mut impl Write) -> io::Result<()>
    requires { case.now.room ≤ 300 }
{
    let Edition { kanji, number } = *edition;
    let text = case.numbers.as_slice();
    match case.call {
        b'G' => tell(out, || hosts::judge_with(kanji, text)),
        b'g' => tell(out, || hosts::judge(text)),
        b'H' => lend_octets(out, case, |ascii| hosts::to_ascii_with(kanji, text, ascii)),
        b'h' => lend_octets(out, case, |ascii| hosts::to_ascii(text, ascii)),
        b'R' => lend_codes(out, case, |form| fronts::front_with(edition, text, form)),
        b'V' => tell(out, || typed(number, text).look_host_with(kanji)),
        b'v' => tell(out, || typed(number, text).look_host()),
        _ => on_numbers(edition, case, out),
    }
}

// A call on a label, on single numbers or on two texts, or one of the outside's.
fn on_numbers(edition: &Edition, case: &Case, out: &mut impl Write) -> io::Result<()>
    requires { case.now.room ≤ 300 }
{
    let room = case.room;
    let numbers = case.numbers.as_slice();
    match case.call {
        b'E' => lend_octets(out, case, |ascii| punycode::encode(numbers, ascii)),
        b'I' => put_flag(out, names::is_edition(edition.number)),
        b'K' => kinds::kinds(out, edition, numbers),
        b'N' => lend_codes(out, case, |form| normal::normal_form(numbers, form)),
        b'O' => outside::on_points(out, edition.number, room, numbers),
        b'P' => slices::places(out, numbers, room),
        b'Q' => label::one_label(out, edition, numbers, room != 0),
        b'T' => slices::two_lists(out, numbers, room),
        b'X' => lend_octets(out, case, |ascii| ascii::label_form(numbers, ascii)),
        b'o' => wishing::told(out, numbers, room),
        b'w' => wishing::wishes(out, edition.kanji, numbers, room),
        _ => put_malformed(out),
    }
}

// A call on octets.
fn on_octets(edition: &Edition, alloc: Global, case: &Case, out: &mut impl Write) -> io::Result<()>
    requires { case.now.room ≤ 300 }
{
    let Edition { kanji, number } = *edition;
    let room = case.room;
    let narrowed = case.numbers.iter().map(|x| u8::try_from(*x).ok());
    let Some(octets) = narrowed.collect::<Option<Vec<u8>>>(alloc)? else {
        return put_malformed(out);
    };
    let octets = octets.as_slice();
    match case.call {
        b'B' => streams::whole_batch(out, kanji, octets),
        b'D' => lend_codes(out, case, |label| punycode::decode(octets, label)),
        b'F' => slices::fields(out, octets, room),
        b'U' => lend_codes(out, case, |text| utf8::decode(octets, text)),
        b'W' => lend_octets(out, case, |reply| answer::answer_with(kanji, octets, reply)),
        _ => outside::on_octets(out, number, room, octets),
    }
}

// The answer to a line.
pub(crate) fn answer(
    kanji: &[u32],
    alloc: Global,
    line: &[u8],
    out: &mut impl Write,
) -> io::Result<()> {
    let Some(case) = cases::read(alloc, line)? else {
        return put_malformed(out);
    };
    let edition = Edition {
        kanji,
        number: case.edition,
    };
    match case.call {
        b'B' | b'D' | b'F' | b'U' | b'W' | b'Y' => on_octets(&edition, alloc, &case, out),
        _ => on_name(&edition, &case, out),
    }
}
