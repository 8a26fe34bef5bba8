// An answer in twelve numbers, which a caller lends: number, place, class, kinds, length, then the labels: count, starts, lengths.
ghost use Rattle.std.specs.Prelude.{◌≡◌, ◌≤◌};
ghost use Rattle.refusals.specs.Refusals.{number_of, filled};
ghost use Rattle.rules.specs.Verdicts.{class_told};
ghost use Rattle.sagebasket.specs.Outside.{class_number, kinds_number, numbers, unnamed};
ghost use Rattle.sagebasket.specs.Steps.{Small};

use refusals::Refused;
use rules::{Class, Kinds, LabelPlaces};

// The check tells no kinds.
pub(crate) const NO_KINDS: Kinds = Kinds {
    hiragana: false,
    katakana: false,
    kanji: false,
    sign: false,
};

// The ASCII form tells no label.
pub(crate) const NO_LABELS: LabelPlaces = LabelPlaces {
    count: 0,
    starts: [0; 3],
    lengths: [0; 3],
};

fn class_number(class: Class) -> u32
    ensures { result ≡ class_number (class_told class) }
{
    match class {
        Class::General => 1,
        Class::Prefecture => 2,
    }
}

fn kinds_number(kinds: Kinds) -> u32
    ensures { result ≡ kinds_number kinds }
{
    u32::from(kinds.hiragana)
        + 2 * u32::from(kinds.katakana)
        + 4 * u32::from(kinds.kanji)
        + 8 * u32::from(kinds.sign)
}

// Tells of an accepted name.
pub(crate) fn tell_name(
    class: Class,
    kinds: Kinds,
    length: usize,
    labels: LabelPlaces,
    answer: &mut [u32; 12],
) -> u32
    requires { Small 0 length labels }
    ensures { (answer.new ≡ numbers 0 0 (class_told class) kinds length labels) × (result ≡ 0) }
{
    let starts = labels.starts;
    let lengths = labels.lengths;
    *answer = [
        0,
        0,
        class_number(class),
        kinds_number(kinds),
        length as u32,
        labels.count as u32,
        starts[0] as u32,
        starts[1] as u32,
        starts[2] as u32,
        lengths[0] as u32,
        lengths[1] as u32,
        lengths[2] as u32,
    ];
    0
}

// Tells of what is accepted and has no class, no kinds and no labels, but a length.
pub(crate) fn tell_length(length: usize, answer: &mut [u32; 12]) -> u32
    requires { length ≤ 257 }
    ensures { (answer.new ≡ unnamed 0 0 length) × (result ≡ 0) }
{
    *answer = [0; 12];
    answer[4] = length as u32;
    0
}

// Tells of a refusal. The length is that of a text which is shown with it.
pub(crate) fn tell_refusal(refused: Refused, length: usize, answer: &mut [u32; 12]) -> u32
    requires { (refused.place ≤ 257) × (length ≤ 257) }
    ensures { (answer.new ≡ unnamed (number_of refused.why) refused.place length) × (result ≡ number_of refused.why) }
{
    tell_length(length, answer);
    answer[0] = u32::from(u8::from(refused.why));
    answer[1] = refused.place as u32;
    answer[0]
}

// Tells of a call that writes octets or code points, and so many of them where it accepts.
pub(crate) fn tell_written(said: Result<usize, Refused>, answer: &mut [u32; 12]) -> u32
    requires { ((filled said).place ≤ 257) × ((filled said).length ≤ 257) }
    ensures { (answer.new ≡ unnamed (filled said).number (filled said).place (filled said).length) × (result ≡ (filled said).number) }
{
    match said {
        Ok(length) => tell_length(length, answer),
        Err(refused) => tell_refusal(refused, 0, answer),
    }
}
