// The second reader of labels, as document 004 is written: one rule stands after a letter, digit or Japanese character, the
// other after a hyphen, each handing the rest of the label to the other. Each call takes any label and says yes or no of it, by the edition in
// force. Its meaning is defined in `rules` (specs/Reader), and that it agrees with the rules but for 17 is shown there (proofs/ReaderAgrees).
#![tactic(auto)]

ghost use Rattle.std.specs.Prelude.{◌≡◌, ◌||◌, ◌+◌, ◌≤◌, ◌<◌, length};
ghost use Rattle.rules.specs.Reader.{skip, note, length_fits, ending, after_character, after_hyphen, reader};
ghost use Rattle.rules.specs.Editions.{permits, today, today_with};

use characters::Edition;
use labels::{in_label_with, is_ordinary_with};
use rules::{IN_FORCE, Seen};

const HYPHEN: u32 = 0x2D;

const MIDDLE_DOT: u32 = 0x30FB;

const NOTHING: Seen = Seen {
    count: 0,
    ja: false,
    dot: false,
    ordinary: false,
};

// A hyphen more.
#[tactic(auto, unfolding(rules::specs::Reader::skip))]
fn skipped(s: Seen) -> Seen
    requires { s.count < 63 }
    ensures { result ≡ skip s }
{
    Seen {
        count: s.count + 1,
        ..s
    }
}

// One character more.
#[tactic(auto, unfolding(rules::specs::Reader::note, rules::specs::Rules::is_middle_dot, rules::specs::Permits::ja_char, rules::specs::Editions::edition_with))]
fn noted(edition: &Edition, s: Seen, x: u32) -> Seen
    requires { s.count < 63 }
    ensures { result ≡ note (permits edition.now) s x }
{
    Seen {
        count: s.count + 1,
        ja: s.ja || edition.is_japanese(x),
        dot: s.dot || x == MIDDLE_DOT,
        ordinary: s.ordinary || is_ordinary_with(edition, x),
    }
}

// May a label of n characters end here?
#[tactic(auto, unfolding(rules::specs::Reader::length_fits))]
fn length_fits(n: usize, ja: bool) -> bool
    ensures { result ≡ length_fits n ja }
{
    if ja { n <= 15 } else { (3..=63).contains(&n) }
}

#[tactic(auto, unfolding(rules::specs::Reader::ending))]
fn may_end(s: Seen) -> bool
    ensures { result ≡ ending s }
{
    length_fits(s.count, s.ja) && (!s.dot || s.ordinary)
}

// Two functions that call each other, as the document has two rules; of a label that goes on both say the same.
#[cycle(after_character_after_hyphen)]
fn after_character(edition: &Edition, label: &[u32], s: Seen) -> bool
    requires { s.count + length label.now ≤ 63 }
    ensures { result ≡ after_character (permits edition.now) label.now s }
{
    match label {
        [] => may_end(s),
        [HYPHEN, rest @ ..] => after_hyphen(edition, rest, skipped(s)),
        [x, rest @ ..] => in_label_with(edition, *x)
            && after_character(edition, rest, noted(edition, s, *x)),
    }
}

#[cycle(after_character_after_hyphen)]
fn after_hyphen(edition: &Edition, label: &[u32], s: Seen) -> bool
    requires { s.count + length label.now ≤ 63 }
    ensures { result ≡ after_hyphen (permits edition.now) label.now s }
{
    match label {
        [] => false,
        [HYPHEN, rest @ ..] => after_hyphen(edition, rest, skipped(s)),
        [x, rest @ ..] => in_label_with(edition, *x)
            && after_character(edition, rest, noted(edition, s, *x)),
    }
}

// What begins with no hyphen is read as if after a character, of which nothing is noted. Over 63 characters no label is read: asked first, it
// bounds the depth of the calls.
pub fn reads_with(kanji: &[u32], label: &[u32]) -> bool
    ensures { result ≡ reader (today_with kanji.now) label.now }
{
    let edition = Edition {
        kanji,
        number: IN_FORCE,
    };
    match label {
        [] | [HYPHEN, ..] => false,
        _ => label.len() <= 63 && after_character(&edition, label, NOTHING),
    }
}

// The same by the kanji themselves.
pub fn reads(label: &[u32]) -> bool
    ensures { result ≡ reader today label.now }
{
    let kanji = characters::kanji_table();
    reads_with(kanji, label)
}
