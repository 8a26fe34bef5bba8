// The answer to a line of a batch: id, number, place, class, ASCII form and kinds, tab-parted and ended by LF; the name is judged by the
// edition in force. Each call takes any slices and says all of its result, and writes nothing where it refuses. Its meaning is defined in
// specs/: Answer; what a call answers and writes in Answers. The usual line has a way of its own (src/usual), and the same answer.
#![tactic(auto)]

mod usual;

ghost use Rattle.std.specs.Prelude.{◌≡◌, [], ◌∷◌, ◌+◌, ◌≤◌, ◌<◌, ◌%◌, length};
ghost use Rattle.lists.specs.Tests.{pick};
ghost use Rattle.lists.specs.Front.{Puts};
ghost use Rattle.refusals.specs.Refusals.{number_of};
ghost use Rattle.rules.specs.Editions.{today_with};
ghost use Rattle.rules.specs.Verdicts.{class_told};
ghost use Rattle.answer.specs.Answer.{decimal, letter, kind_field, refused_answer, bad_answer, good_answer, answer_to};
ghost use Rattle.answer.specs.Answers.{Writes, wrote_told, AnswersFirst, next_told, front_of, before_form, after_form, fields_answer};

use crate::usual::usual_line;
use characters::Edition;
use lines::{TAB, line_end};
use refusals::Refusal;
use rules::{Class, Kinds};

const LF: u8 = b'\n';

const HYPHEN: u8 = b'-';

// A line of more bytes is refused.
pub const LONGEST_LINE: usize = 1024;

// Room for the longest answer.
pub const MOST: usize = 256;

// Where the LF of a line that was answered is, and how many bytes were written.
#[derive(Clone, Copy)]
pub struct AnsweredLine {
    pub end: usize,
    pub length: usize,
}

// Puts s into out from n on, and answers the place past it. Byte by byte: a copy between two lent slices would have a C program bring memmove.
fn put(out: &mut [u8], n: usize, s: &[u8]) -> usize
    requires { n + length s.now ≤ length out.old }
    ensures { Puts s.now out.old out.new n result }
{
    for (i, b) in s.iter().enumerate() {
        out[n + i] = *b;
    }
    n + s.len()
}

fn put_byte(out: &mut [u8], n: usize, b: u8) -> usize
    requires { n < length out.old }
    ensures { Puts (b ∷ []) out.old out.new n result }
{
    out[n] = b;
    n + 1
}

// Puts the last digit of a number.
fn put_digit(out: &mut [u8], n: usize, x: usize) -> usize
    requires { n < length out.old }
    ensures { Puts ((0x30 + x % 10) ∷ []) out.old out.new n result }
{
    put_byte(out, n, b'0' + (x % 10) as u8)
}

// Puts a number of at most three digits.
fn put_decimal(out: &mut [u8], n: usize, x: usize) -> usize
    requires { n + 3 ≤ length out.old }
    ensures { Puts (decimal x) out.old out.new n result }
{
    match x {
        0..=9 => put_digit(out, n, x),
        10..=99 => {
            let a = put_digit(out, n, x / 10);
            put_digit(out, a, x)
        }
        _ => {
            let a = put_digit(out, n, x / 100);
            let b = put_digit(out, a, x / 10);
            put_digit(out, b, x)
        }
    }
}

#[tactic(auto, unfolding(crate::specs::Answer::letter))]
fn class_letter(class: Class) -> u8
    ensures { result ≡ letter (class_told class) }
{
    match class {
        Class::General => b'G',
        Class::Prefecture => b'P',
    }
}

// Puts id, number and place, a tab after each, at the start of out.
fn put_front(id: &[u8], number: usize, place: usize, out: &mut [u8]) -> usize
    requires { length id.now + 9 ≤ length out.old }
    ensures { Puts (front_of id.now number place) out.old out.new 0 result }
{
    let a = put(out, 0, id);
    let b = put_byte(out, a, TAB);
    let c = put_decimal(out, b, number);
    let d = put_byte(out, c, TAB);
    let e = put_decimal(out, d, place);
    put_byte(out, e, TAB)
}

// The number of a refusal, as wide as a place.
fn number_of(why: Refusal) -> usize
    ensures { result ≡ number_of why }
{
    usize::from(u8::from(why))
}

// What follows the place in the answer to a refusal: no class, no form, no kinds.
const REFUSED: [u8; 6] = [HYPHEN, TAB, HYPHEN, TAB, HYPHEN, LF];

// Puts the answer to a refusal at the start of out.
fn put_refused(id: &[u8], number: usize, place: usize, out: &mut [u8]) -> usize
    requires { length id.now + 15 ≤ length out.old }
    ensures { Puts (refused_answer id.now number place) out.old out.new 0 result }
{
    let a = put_front(id, number, place, out);
    put(out, a, &REFUSED)
}

// Puts the answer to a bad line.
#[tactic(auto, unfolding(crate::specs::Answer::bad_answer))]
fn put_bad(out: &mut [u8]) -> usize
    requires { 256 ≤ length out.old }
    ensures { Puts bad_answer out.old out.new 0 result }
{
    put_refused(&[HYPHEN], number_of(Refusal::BadLine), 0, out)
}

// Puts a kind's letter where the kind is found.
fn put_found(out: &mut [u8], n: usize, found: bool, letter: u8) -> usize
    requires { n < length out.old }
    ensures { Puts (pick found (letter ∷ []) []) out.old out.new n result }
{
    if found { put_byte(out, n, letter) } else { n }
}

// Puts the letters of the kinds that are found, or a hyphen.
fn put_kinds(out: &mut [u8], n: usize, kinds: Kinds) -> usize
    requires { n + 4 ≤ length out.old }
    ensures { Puts (kind_field kinds) out.old out.new n result }
{
    let a = put_found(out, n, kinds.hiragana, b'H');
    let b = put_found(out, a, kinds.katakana, b'K');
    let c = put_found(out, b, kinds.kanji, b'J');
    let d = put_found(out, c, kinds.sign, b'S');
    if d == n { put_byte(out, n, HYPHEN) } else { d }
}

// Puts what stands before the ASCII form of an accepted name, at the start of out.
fn put_accepted(id: &[u8], class: Class, out: &mut [u8]) -> usize
    requires { length id.now + 11 ≤ length out.old }
    ensures { Puts (before_form id.now (class_told class)) out.old out.new 0 result }
{
    let letter = class_letter(class);
    let a = put_front(id, 0, 0, out);
    let b = put_byte(out, a, letter);
    put_byte(out, b, TAB)
}

// Puts what stands after it.
fn put_end(out: &mut [u8], n: usize, kinds: Kinds) -> usize
    requires { n + 6 ≤ length out.old }
    ensures { Puts (after_form kinds) out.old out.new n result }
{
    let a = put_byte(out, n, TAB);
    let b = put_kinds(out, a, kinds);
    put_byte(out, b, LF)
}

// Puts the answer to a line with this id and this text as its name. The form goes straight to its place.
pub(crate) fn put_text(kanji: &[u32], id: &[u8], text: &[u32], out: &mut [u8]) -> usize
    requires { (length id.now ≤ 32) × (256 ≤ length out.old) }
    ensures { Puts (good_answer (today_with kanji.now) id.now text.now) out.old out.new 0 result }
{
    let edition = Edition {
        kanji,
        number: rules::IN_FORCE,
    };
    let start = id.len() + 7;
    let end = start + 192;
    match names::to_ascii_with(&edition, text, &mut out[start..end]) {
        Ok(name) => {
            let a = put_accepted(id, name.class, out);
            put_end(out, a + name.length, name.kinds)
        }
        Err(refused) => put_refused(id, number_of(refused.why), refused.place, out),
    }
}

// Puts the answer to a line with these two fields.
fn put_fields(kanji: &[u32], id: &[u8], name: &[u8], out: &mut [u8]) -> usize
    requires { 256 ≤ length out.old }
    ensures { Puts (fields_answer (today_with kanji.now) id.now name.now) out.old out.new 0 result }
{
    if !lines::is_id(id) {
        return put_bad(out);
    }
    // With more than 256 code points the rules look no further.
    let mut text = [0u32; 257];
    match utf8::decode(name, &mut text) {
        Some(count) => put_text(kanji, id, &text[..count.min(257)], out),
        None => put_bad(out),
    }
}

// Puts the answer to a line.
#[tactic(auto, using(crate::proofs::Answering::tab_inside))]
fn put_answer(kanji: &[u32], line: &[u8], out: &mut [u8]) -> usize
    requires { 256 ≤ length out.old }
    ensures { Puts (answer_to (today_with kanji.now) line.now) out.old out.new 0 result }
{
    if LONGEST_LINE < line.len() {
        return put_bad(out);
    }
    match lines::split(line) {
        Some(tab) => put_fields(kanji, &line[..tab], &line[tab + 1..], out),
        None => put_bad(out),
    }
}

// The answer to a line, at the start of out: how many bytes it has. Without room for the longest nothing is written, and no number told.
pub fn answer_with(kanji: &[u32], line: &[u8], out: &mut [u8]) -> Option<usize>
    ensures { Writes (answer_to (today_with kanji.now) line.now) out.old out.new (wrote_told result) }
{
    if out.len() < MOST {
        return None;
    }
    Some(put_answer(kanji, line, out))
}

// The answer to the first line of a piece, at the start of out, where there is room and the line ends in the piece.
pub fn next_with(kanji: &[u32], piece: &[u8], out: &mut [u8]) -> Option<AnsweredLine>
    ensures { AnswersFirst (answer_to (today_with kanji.now)) piece.now out.old out.new (next_told result) }
{
    if out.len() < MOST {
        return None;
    }
    if let Some(line) = usual_line(kanji, piece, out) {
        return Some(line);
    }
    let end = line_end(piece, 0);
    if piece.len() <= end {
        return None;
    }
    let length = put_answer(kanji, &piece[..end], out);
    Some(AnsweredLine { end, length })
}
