// The calls on one label.
use crate::printed::{Said, put_flag, put_gap, put_kinds, put_length, put_malformed};
use characters::Edition;
use rules::Asks;
use std::io;
use std::io::Write;

// The number that its upper and its lower half make.
fn of_halves(upper: u32, lower: u32) -> usize {
    upper as usize * 0x100000000 + lower as usize
}

// Where a label ends that begins at `from`, its first unfit character, is it Japanese, may a label hold all of its characters, and which
// kinds are found?
fn put_held(out: &mut impl Write, edition: &Edition, label: &[u32], from: usize) -> io::Result<()> {
    let end = labels::label_end(label, from);
    let unfit = labels::first_unfit_with(edition, label).unwrap_or(label.len());
    put_length(out, end)?;
    put_length(out, unfit)?;
    put_gap(out)?;
    put_flag(out, labels::holds_japanese_with(edition, label))?;
    match labels::held_with(edition, label) {
        Some(kinds) => {
            out.write_all(b" 1")?;
            put_kinds(out, kinds)
        }
        None => out.write_all(b" 0-"),
    }
}

// A space and four flags: is the label "jp", does it begin that, is it a prefecture label, does it begin one?
fn put_endings(out: &mut impl Write, edition: u32, label: &[u32]) -> io::Result<()> {
    put_gap(out)?;
    put_flag(out, endings::is_jp(label))?;
    put_flag(out, endings::begins_jp(label))?;
    put_flag(out, endings::is_prefecture(edition, label))?;
    put_flag(out, endings::begins_prefecture(edition, label))
}

// For each character a space and two flags: may a label hold it, and is it an ordinary one?
fn put_characters(out: &mut impl Write, edition: &Edition, label: &[u32]) -> io::Result<()> {
    for c in label {
        put_gap(out)?;
        put_flag(out, labels::in_label_with(edition, *c))?;
        put_flag(out, labels::is_ordinary_with(edition, *c))?;
    }
    Ok(())
}

// Q: one label, after six numbers: the halves of where to begin, of the least length and of the label's place. With `every` the pair is
// refused in every label, else in an ASCII label alone. The first of 7 to 10 and 17 that applies is told of the label as it is, and if it is taken
// for Japanese, or for ASCII.
pub(crate) fn one_label(
    out: &mut impl Write,
    edition: &Edition,
    numbers: &[u32],
    every: bool,
) -> io::Result<()> {
    let [a, b, c, d, e, f, label @ ..] = numbers else {
        return put_malformed(out);
    };
    let asks = Asks {
        least: of_halves(*c, *d),
        every_pair: every,
    };
    let at = of_halves(*e, *f);
    labels::label_rule_with(edition, label, asks, at).put(out)?;
    put_held(out, edition, label, of_halves(*a, *b))?;
    for japanese in [true, false] {
        put_gap(out)?;
        labels::known_rule_with(edition, label, japanese, asks, at).put(out)?;
    }
    put_endings(out, edition.number, label)?;
    put_characters(out, edition, label)
}
