// The calls on single characters.
use crate::printed::put_gap;
use characters::{Edition, Kind, Replacement};
use std::io;
use std::io::Write;

// The letter of a replacement class.
fn class_letter(class: Replacement) -> char {
    match class {
        Replacement::Letter => 'L',
        Replacement::Digit => 'D',
        Replacement::Hyphen => 'H',
        Replacement::Separator => 'S',
        Replacement::HalfKana => 'K',
        Replacement::Mark => 'M',
        Replacement::Other => 'O',
    }
}

// The letter of a kind, or a hyphen for none.
fn kind_letter(kind: Option<Kind>) -> char {
    match kind {
        Some(Kind::Hiragana) => 'H',
        Some(Kind::Katakana) => 'K',
        Some(Kind::Kanji) => 'J',
        Some(Kind::Sign) => 'S',
        None => '-',
    }
}

// What a code point is: a flag for each call that says so, its kind by either call and its class; then what it and the next become.
fn put_said(out: &mut impl Write, edition: &Edition, c: u32, next: u32) -> io::Result<()> {
    let alnum = u8::from(characters::is_alnum(c));
    let ascii = u8::from(characters::is_ascii(c));
    let japanese = u8::from(edition.is_japanese(c));
    let kind = kind_letter(edition.kind(c));
    let own = kind_letter(characters::kind_of(edition.number, c));
    write!(out, "{alnum}{ascii}{japanese}{kind}{own}")?;
    let class = class_letter(characters::class_of(c));
    let replaced = characters::replaced(c);
    let joined = characters::joined(c, next).unwrap_or(0);
    write!(out, "{class} {replaced:x} {joined:x}")
}

// K: what each number is. After the last comes 0.
pub(crate) fn kinds(out: &mut impl Write, edition: &Edition, numbers: &[u32]) -> io::Result<()> {
    for (i, c) in numbers.iter().enumerate() {
        if i > 0 {
            put_gap(out)?;
        }
        let next = numbers.get(i + 1).copied().unwrap_or(0);
        put_said(out, edition, *c, next)?;
    }
    Ok(())
}
