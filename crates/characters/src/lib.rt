// Which code point is what: Japanese and of which kind, what replaces it, and what a base and a mark become.
// Each call takes any 32-bit number, any edition and any lent table, and says all of its result. Its meaning is defined in specs/:
// Characters, Replace, Compose. A call `.._with` is lent the table of kanji, so that a program names that table once: `kanji_bits` gives it, and
// says which it is.
#![tactic(auto)]

mod kanji;

ghost use Rattle.std.specs.Prelude.{[], ◌∷◌, ◌++◌, ◌≡◌, ◌+◌, ltb};
ghost use Rattle.lists.specs.Tests.{pick, elem};
ghost use Rattle.characters.specs.Characters.{alnum, ascii_set, signs_in, kind, any_kind, kanji_with, kind_with};
ghost use Rattle.characters.specs.KanjiBits.{kanji_bits};
ghost use Rattle.characters.specs.Replace.{class_of, replace};
ghost use Rattle.characters.specs.Compose.{voiced, half_voiced, composed, one_of};
ghost use Rattle.characters.specs.Kinds.{kind_told};

use kanji::KANJI;

// A letter, in lower case as the normal form has it, or a digit?
#[tactic(auto, using(std::proofs::lemmas::Bool::Decides::nat_tests), unfolding(crate::specs::Characters::alnum, lists::specs::Tests::within))]
pub fn is_alnum(c: u32) -> bool
    ensures { result ≡ alnum c }
{
    matches!(c, 0x30..=0x39 | 0x61..=0x7A)
}

// Of the ASCII set?
#[tactic(auto, using(std::proofs::lemmas::Bool::Decides::nat_tests), unfolding(crate::specs::Characters::ascii_set, crate::specs::Characters::hyphen))]
pub fn is_ascii(c: u32) -> bool
    ensures { result ≡ ascii_set c }
{
    is_alnum(c) || c == 0x2D
}

// A sign of row 1? 3003 is one in edition 1 alone.
#[tactic(auto, using(std::proofs::lemmas::Bool::Decides::nat_tests), unfolding(crate::specs::Characters::signs, crate::specs::Characters::signs_in, lists::specs::Tests::elem, lists::specs::Tests::any_of))]
fn is_sign(edition: u32, c: u32) -> bool
    ensures { result ≡ elem c (signs_in edition) }
{
    matches!(c, 0x3005..=0x3007 | 0x309D..=0x309E | 0x30FB..=0x30FE | 0x4EDD)
        || c == 0x3003 && edition == 1
}

// The table of kanji to lend: a bit for each code point from 4E00 to 9FA0.
pub fn kanji_bits() -> [u32; 654]
    ensures { result ≡ kanji_bits }
{
    KANJI
}

// The same table, lent from where it stands: a call that names it makes no copy.
#[tactic(auto, unfolding(crate::specs::KanjiBits::kanji_bits))]
pub fn kanji_table() -> &'static [u32]
    ensures { result.now ≡ kanji_bits }
{
    &KANJI
}

// A kanji, by a lent table of bits? Any table may be lent, so a short one too.
#[tactic(auto, using(crate::proofs::Bits::short), unfolding(crate::specs::Characters::kanji_with, lists::specs::Tests::within))]
fn is_kanji(kanji: &[u32], c: u32) -> bool
    ensures { result ≡ kanji_with kanji.now c }
{
    if !matches!(c, 0x4E00..=0x9FA0) {
        return false;
    }
    let i = c - 0x4E00;
    kanji
        .get((i / 32) as usize)
        .is_some_and(|word| (word >> (i % 32)) % 2 == 1)
}

// The kind of a Japanese character.
#[derive(Clone, Copy, PartialEq, Eq, Debug)]
pub enum Kind {
    Hiragana,
    Katakana,
    Kanji,
    Sign,
}

// An edition of the rules, as it is asked about many code points: its number, any number, and the table of kanji that is lent, any table.
#[derive(Clone, Copy)]
pub struct Edition<'a> {
    pub kanji: &'a [u32],
    pub number: u32,
}

impl<'a> Edition<'a> {
    // The kind of a code point in the edition. The kanji come first, being the most, and the signs last.
    #[tactic(auto, using(crate::proofs::OneKind::by_stretch), unfolding(lists::specs::Tests::within))]
    pub fn kind(&self, c: u32) -> Option<Kind>
        ensures { kind_told result ≡ kind_with self.now.kanji.now self.now.number c }
    {
        if is_kanji(self.kanji, c) {
            return Some(Kind::Kanji);
        }
        match c {
            0x3041..=0x3093 => Some(Kind::Hiragana),
            0x30A1..=0x30F6 => Some(Kind::Katakana),
            _ if is_sign(self.number, c) => Some(Kind::Sign),
            _ => None,
        }
    }

    // A Japanese character, which is one of any kind?
    #[tactic(auto, using(crate::proofs::OneKind::some_is))]
    pub fn is_japanese(&self, c: u32) -> bool
        ensures { result ≡ any_kind (kind_with self.now.kanji.now self.now.number c) }
    {
        self.kind(c).is_some()
    }
}

// The kind of a code point by the kanji themselves, for a single one; who asks about many lends the table.
pub fn kind_of(edition: u32, c: u32) -> Option<Kind>
    ensures { kind_told result ≡ kind edition c }
{
    let edition = Edition {
        kanji: &KANJI,
        number: edition,
    };
    edition.kind(c)
}

// The replacement class of a code point.
#[derive(Clone, Copy)]
pub enum Replacement {
    Letter,
    Digit,
    Hyphen,
    Separator,
    HalfKana,
    Mark,
    Other,
}

#[tactic(auto, using(std::proofs::lemmas::Bool::Decides::nat_tests), unfolding(crate::specs::Replace::class_of, crate::specs::Replace::ranges, crate::specs::Replace::range_in, lists::specs::Tests::within))]
pub fn class_of(c: u32) -> Replacement
    ensures { result ≡ class_of c }
{
    match c {
        0x41..=0x5A | 0x61..=0x7A | 0xFF21..=0xFF3A | 0xFF41..=0xFF5A => Replacement::Letter,
        0x30..=0x39 | 0xFF10..=0xFF19 => Replacement::Digit,
        0x2D | 0xFF0D | 0x2212 => Replacement::Hyphen,
        0x2E | 0xFF0E | 0x3002 | 0xFF61 => Replacement::Separator,
        0xFF65..=0xFF9F => Replacement::HalfKana,
        0x309B..=0x309C => Replacement::Mark,
        _ => Replacement::Other,
    }
}

const HALF: [u32; 59] = [
    0x30FB, 0x30F2, 0x30A1, 0x30A3, 0x30A5, 0x30A7, 0x30A9, 0x30E3, 0x30E5, 0x30E7, 0x30C3, 0x30FC,
    0x30A2, 0x30A4, 0x30A6, 0x30A8, 0x30AA, 0x30AB, 0x30AD, 0x30AF, 0x30B1, 0x30B3, 0x30B5, 0x30B7,
    0x30B9, 0x30BB, 0x30BD, 0x30BF, 0x30C1, 0x30C4, 0x30C6, 0x30C8, 0x30CA, 0x30CB, 0x30CC, 0x30CD,
    0x30CE, 0x30CF, 0x30D2, 0x30D5, 0x30D8, 0x30DB, 0x30DE, 0x30DF, 0x30E0, 0x30E1, 0x30E2, 0x30E4,
    0x30E6, 0x30E8, 0x30E9, 0x30EA, 0x30EB, 0x30EC, 0x30ED, 0x30EF, 0x30F3, 0x309B, 0x309C,
];

// What replaces a code point, by its class. The ranges of letters start at 1 modulo 32, those of digits at 0 modulo 16.
#[tactic(auto, using(crate::proofs::Classes::stays))]
pub fn replaced(c: u32) -> u32
    ensures { result ≡ replace c }
{
    // Here are the kana and the kanji, the most of a text: each stays.
    if matches!(c, 0x3003..=0xFF0C) {
        return c;
    }
    match class_of(c) {
        Replacement::Letter => 0x60 + c % 32,
        Replacement::Digit => 0x30 + c % 16,
        Replacement::Hyphen => 0x2D,
        Replacement::Separator => 0x2E,
        Replacement::HalfKana => HALF[(c - 0xFF65) as usize],
        Replacement::Mark | Replacement::Other => c,
    }
}

// A katakana to which mark 309B adds 1, or the repeat sign? It adds 1 to each in hiragana too.
#[tactic(auto, using(std::proofs::lemmas::Bool::Decides::nat_tests), unfolding(crate::specs::Compose::voiced, lists::specs::Tests::elem, lists::specs::Tests::any_of))]
fn is_voiced(katakana: u32) -> bool
    ensures { result ≡ elem katakana (voiced ++ 0x30FD ∷ []) }
{
    matches!(
        katakana,
        0x30AB
            | 0x30AD
            | 0x30AF
            | 0x30B1
            | 0x30B3
            | 0x30B5
            | 0x30B7
            | 0x30B9
            | 0x30BB
            | 0x30BD
            | 0x30BF
            | 0x30C1
            | 0x30C4
            | 0x30C6
            | 0x30C8
            | 0x30CF
            | 0x30D2
            | 0x30D5
            | 0x30D8
            | 0x30DB
            | 0x30FD
    )
}

// One to which mark 309C adds 2?
#[tactic(auto, using(std::proofs::lemmas::Bool::Decides::nat_tests), unfolding(crate::specs::Compose::half_voiced, lists::specs::Tests::elem, lists::specs::Tests::any_of))]
fn is_half_voiced(katakana: u32) -> bool
    ensures { result ≡ elem katakana half_voiced }
{
    matches!(katakana, 0x30CF | 0x30D2 | 0x30D5 | 0x30D8 | 0x30DB)
}

// What stands in the katakana row as b in the hiragana; past the hiragana b itself.
fn in_katakana(b: u32) -> u32
    ensures { result ≡ pick (ltb b 0x30A1) (b + 0x60) b }
{
    if b < 0x30A1 { b + 0x60 } else { b }
}

// What a base and one of the two marks become, or nothing where they stay apart.
#[tactic(auto, using(crate::proofs::Pairs::by_mark), unfolding(crate::specs::Compose::one_of, crate::specs::Compose::composed, crate::specs::Compose::voiced, crate::specs::Compose::half_voiced))]
fn marked(base: u32, mark: u32) -> Option<u32>
    ensures { result ≡ one_of (composed base mark) }
{
    match mark {
        0x309B if is_voiced(in_katakana(base)) => Some(base + 1),
        0x309B if base == 0x30A6 => Some(0x30F4),
        0x309C if is_half_voiced(in_katakana(base)) => Some(base + 2),
        _ => None,
    }
}

// The one character that a base and a mark become, or none where the two stay apart. The mark is tested first, and at the place of the call:
// few code points are one.
#[inline(always)]
#[tactic(auto, using(crate::proofs::Pairs::by_mark), unfolding(crate::specs::Compose::one_of, crate::specs::Compose::composed))]
pub fn joined(base: u32, mark: u32) -> Option<u32>
    ensures { result ≡ one_of (composed base mark) }
{
    if matches!(mark, 0x309B..=0x309C) {
        marked(base, mark)
    } else {
        None
    }
}
