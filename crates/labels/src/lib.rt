// One label of a normal form: where it ends, what may stand in it, which kinds it holds, and what rules 7 to 10 and 17 say of it, for every
// family of names. Each call takes any slice, any edition where it asks which character is Japanese, and says all of its result. Its meaning
// is defined in `rules` (specs/Labels, Permits, Editions, Kinds, Rules), what a label holds here in specs/Held, and where a call is told whether the label is Japanese, in specs/Known.
#![tactic(auto)]

mod kinds;

ghost use Rattle.std.specs.Prelude.{◌≡◌, not, ◌&&◌, ◌||◌, ◌+◌, ltb, drop, position};
ghost use Rattle.lists.specs.Tests.{pick, index_of, elem};
ghost use Rattle.lists.specs.Rows.{first};
ghost use Rattle.refusals.specs.Refusals.{told};
ghost use Rattle.rules.specs.Labels.{period};
ghost use Rattle.rules.specs.Permits.{ja_char, label_char};
ghost use Rattle.rules.specs.Rules.{unfit, ordinary, is_japanese, hyphen_edge, hyphen_pair, bare_dot, label_rows};
ghost use Rattle.rules.specs.Editions.{permits};
ghost use Rattle.labels.specs.Known.{known_rows};

use characters::{Edition, is_ascii};
pub use kinds::{any_kind, held_with};
use refusals::{Refusal, Refused};
use rules::Asks;

// No Japanese character stands below.
const FIRST_JAPANESE: u32 = 0x3003;

const PERIOD: u32 = 0x2E;

const HYPHEN: u32 = 0x2D;

const MIDDLE_DOT: u32 = 0x30FB;

// The index of the first period from `from` on, or the length; `from` itself where it is past the end.
pub fn label_end(text: &[u32], from: usize) -> usize
    ensures { result ≡ from + index_of period (drop from text.now) }
{
    let rest = text.get(from..).unwrap_or(&[]);
    from + rest
        .iter()
        .copied()
        .position(|c| c == PERIOD)
        .unwrap_or(rest.len())
}

// A Japanese character?
fn is_ja(edition: &Edition, c: u32) -> bool
    ensures { result ≡ ja_char (permits edition.now) c }
{
    FIRST_JAPANESE <= c && edition.is_japanese(c)
}

// May a label hold c? The ASCII set stands below 80.
pub fn in_label_with(edition: &Edition, c: u32) -> bool
    ensures { result ≡ label_char (permits edition.now) c }
{
    if c < 0x80 {
        is_ascii(c)
    } else {
        edition.is_japanese(c)
    }
}

// Neither period nor what a label may hold?
#[tactic(auto, unfolding(rules::specs::Rules::unfit, rules::specs::Labels::period))]
pub fn is_unfit_with(edition: &Edition, c: u32) -> bool
    ensures { result ≡ unfit (permits edition.now) c }
{
    c != PERIOD && !in_label_with(edition, c)
}

// The index of the first character that is neither period nor may stand in a label.
pub fn first_unfit_with(edition: &Edition, form: &[u32]) -> Option<usize>
    ensures { result ≡ position (unfit (permits edition.now)) form.now }
{
    form.iter().position(|c| is_unfit_with(edition, *c))
}

// Does the label hold a Japanese character?
pub fn holds_japanese_with(edition: &Edition, label: &[u32]) -> bool
    ensures { result ≡ is_japanese (permits edition.now) label.now }
{
    label.iter().copied().any(|c| is_ja(edition, c))
}

// A Japanese character other than 3006, 30FC and 30FB?
#[tactic(auto, unfolding(rules::specs::Rules::ordinary, rules::specs::Rules::is_middle_dot))]
pub fn is_ordinary_with(edition: &Edition, c: u32) -> bool
    ensures { result ≡ ordinary (permits edition.now) c }
{
    !matches!(c, 0x3006 | 0x30FC | MIDDLE_DOT) && is_ja(edition, c)
}

fn has_middle_dot(label: &[u32]) -> bool
    ensures { result ≡ elem 0x30FB label.now }
{
    label.iter().copied().any(|c| c == MIDDLE_DOT)
}

// A middle dot, and no Japanese character other than the three? Asked of a label that is known to be Japanese or not: the middle dot is a
// Japanese character, so no ASCII label has one.
fn has_bare_dot(edition: &Edition, label: &[u32], japanese: bool) -> bool
    ensures { result ≡ (japanese && bare_dot (permits edition.now) label.now) }
{
    japanese
        && has_middle_dot(label)
        && !label.iter().copied().any(|c| is_ordinary_with(edition, c))
}

// Does it begin or end with a hyphen?
#[tactic(auto, using(crate::proofs::OfLabel::edge_is))]
fn has_edge(label: &[u32]) -> bool
    ensures { result ≡ hyphen_edge label.now }
{
    matches!(label, [HYPHEN, ..] | [.., HYPHEN])
}

fn is_short(n: usize, japanese: bool, least: usize) -> bool
    ensures { result ≡ (not japanese && ltb n least) }
{
    !japanese && n < least
}

fn is_long(n: usize, japanese: bool) -> bool
    ensures { result ≡ ltb (pick japanese 15 63) n }
{
    let most = if japanese { 15 } else { 63 };
    most < n
}

// Hyphens in its third and fourth places?
#[tactic(auto, unfolding(rules::specs::Rules::hyphen_pair, characters::specs::Characters::hyphen))]
fn has_pair(label: &[u32]) -> bool
    ensures { result ≡ hyphen_pair label.now }
{
    matches!(label, [_, _, HYPHEN, HYPHEN, ..])
}

// Does it pretend to be encoded? An ASCII label may not have the pair; with `every` a Japanese one may not either.
fn is_pretending(label: &[u32], japanese: bool, every: bool) -> bool
    ensures { result ≡ (hyphen_pair label.now && (every || not japanese)) }
{
    has_pair(label) && (every || !japanese)
}

// The first of 7 to 10 (document 01) and 17 (document 02, K3) that applies to a label that is known to be Japanese or not, by what its family
// asks of it; `at` is the label's place.
pub fn known_rule_with(
    edition: &Edition,
    label: &[u32],
    japanese: bool,
    asks: Asks,
    at: usize,
) -> Result<(), Refused>
    ensures { told result ≡ first (known_rows (permits edition.now) japanese asks label.now at) }
{
    if has_edge(label) {
        return Err(Refusal::HyphenEdge.at(at));
    }
    let n = label.len();
    if is_short(n, japanese, asks.least) {
        return Err(Refusal::LabelTooShort.at(at));
    }
    if is_long(n, japanese) {
        return Err(Refusal::LabelTooLong.at(at));
    }
    if is_pretending(label, japanese, asks.every_pair) {
        return Err(Refusal::Pretending.at(at));
    }
    if has_bare_dot(edition, label, japanese) {
        return Err(Refusal::BareDot.at(at));
    }
    Ok(())
}

// The same of any label.
pub fn label_rule_with(
    edition: &Edition,
    label: &[u32],
    asks: Asks,
    at: usize,
) -> Result<(), Refused>
    ensures { told result ≡ first (label_rows (permits edition.now) asks label.now at) }
{
    let japanese = holds_japanese_with(edition, label);
    known_rule_with(edition, label, japanese, asks, at)
}
