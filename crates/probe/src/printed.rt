// What an answer is printed of.
ghost use Rattle.std.specs.Prelude.{◌<◌, ◌≤◌};

use fronts::{Front, Judgement};
use names::{Accepted, AsciiName, Formed};
use refusals::Refused;
use rules::{Class, Kinds};
use searches::Searched;
use std::io;
use std::io::Write;

// How a digit is written.
const DIGITS: [u8; 16] = *b"0123456789abcdef";

// The digits of x in a base at the end of a text of spaces, and where they begin: 20 are enough from base 10 on. Most of what is printed are
// numbers, and `write!` is slow at them.
fn digits(x: u64, base: u64) -> ([u8; 21], usize)
    requires { (10 ≤ base) × (base ≤ 16) }
    ensures { (0 < result.1) × (result.1 ≤ 20) }
{
    let mut text = [b' '; 21];
    let mut rest = x;
    let first = text.iter_mut().skip(1).rposition(
        |digit|
            requires { (10 ≤ base) × (base ≤ 16) }
        {
            *digit = DIGITS[(rest % base) as usize];
            rest /= base;
            rest == 0
        },
    );
    (text, first.map_or(1, |i| i + 1))
}

// x in decimal.
pub(crate) fn put_decimal(out: &mut impl Write, x: usize) -> io::Result<()> {
    let (text, first) = digits(x as u64, 10);
    out.write_all(&text[first..])
}

// x in hexadecimal.
pub(crate) fn put_hex(out: &mut impl Write, x: u32) -> io::Result<()> {
    let (text, first) = digits(u64::from(x), 16);
    out.write_all(&text[first..])
}

// A space, and x in decimal.
pub(crate) fn put_length(out: &mut impl Write, x: usize) -> io::Result<()> {
    let (text, first) = digits(x as u64, 10);
    out.write_all(&text[first - 1..])
}

// A space, and x in hexadecimal.
pub(crate) fn put_number(out: &mut impl Write, x: u32) -> io::Result<()> {
    let (text, first) = digits(u64::from(x), 16);
    out.write_all(&text[first - 1..])
}

// A line that is no case.
pub(crate) fn put_malformed(out: &mut impl Write) -> io::Result<()> {
    out.write_all(b"?")
}

// A space before what is not the first of several.
pub(crate) fn put_gap(out: &mut impl Write) -> io::Result<()> {
    out.write_all(b" ")
}

// A comma, and x in decimal.
fn put_after_comma(out: &mut impl Write, x: usize) -> io::Result<()> {
    out.write_all(b",")?;
    put_decimal(out, x)
}

// 1 or 0.
pub(crate) fn put_flag(out: &mut impl Write, yes: bool) -> io::Result<()> {
    out.write_all(if yes { b"1" } else { b"0" })
}

// Numbers in hexadecimal, a space before each.
pub(crate) fn put_numbers(out: &mut impl Write, numbers: &[u32]) -> io::Result<()> {
    for x in numbers {
        put_number(out, *x)?;
    }
    Ok(())
}

// The entries of an array up to the last one that is not zero.
pub(crate) fn put_shown(out: &mut impl Write, form: &[u32]) -> io::Result<()> {
    let last = form.iter().rposition(|x| *x != 0);
    put_numbers(out, &form[..last.map_or(0, |i| i + 1)])
}

// The letters of the kinds, or a hyphen where there is none.
pub(crate) fn put_kinds(out: &mut impl Write, kinds: Kinds) -> io::Result<()> {
    let letters = [
        (kinds.hiragana, b"H"),
        (kinds.katakana, b"K"),
        (kinds.kanji, b"J"),
        (kinds.sign, b"S"),
    ];
    for (found, letter) in letters {
        if found {
            out.write_all(letter)?;
        }
    }
    if labels::any_kind(kinds) {
        return Ok(());
    }
    out.write_all(b"-")
}

// A space and the class.
fn put_class(out: &mut impl Write, class: Class) -> io::Result<()> {
    out.write_all(match class {
        Class::General => b" G",
        Class::Prefecture => b" P",
    })
}

// What a call tells of what it accepts: its words, a space before each. ABSENT is what stands in their place where it refuses.
pub(crate) trait Told: Copy {
    const ABSENT: &'static str;

    fn put_words(&self, out: &mut impl Write) -> io::Result<()>;
}

impl Told for () {
    const ABSENT: &'static str = "";

    fn put_words(&self, _out: &mut impl Write) -> io::Result<()> {
        Ok(())
    }
}

// A length.
impl Told for usize {
    const ABSENT: &'static str = " 0";

    fn put_words(&self, out: &mut impl Write) -> io::Result<()> {
        put_length(out, *self)
    }
}

// The class, and where the labels stand: the count, and start and length of each of three.
impl Told for Accepted {
    const ABSENT: &'static str = " - -";

    fn put_words(&self, out: &mut impl Write) -> io::Result<()> {
        let labels = self.labels;
        put_class(out, self.class)?;
        put_length(out, labels.count)?;
        for (start, length) in labels.starts.iter().zip(&labels.lengths) {
            put_after_comma(out, *start)?;
            put_after_comma(out, *length)?;
        }
        Ok(())
    }
}

// The same, and a length.
impl Told for Formed {
    const ABSENT: &'static str = " - - 0";

    fn put_words(&self, out: &mut impl Write) -> io::Result<()> {
        let Formed { class, labels, .. } = *self;
        Accepted { class, labels }.put_words(out)?;
        put_length(out, self.length)
    }
}

// The class, the kinds and a length.
impl Told for AsciiName {
    const ABSENT: &'static str = " - - 0";

    fn put_words(&self, out: &mut impl Write) -> io::Result<()> {
        put_class(out, self.class)?;
        put_gap(out)?;
        put_kinds(out, self.kinds)?;
        put_length(out, self.length)
    }
}

// A length, and the place of an unfit character.
impl Told for Front {
    const ABSENT: &'static str = " 0 0 0";

    fn put_words(&self, out: &mut impl Write) -> io::Result<()> {
        put_length(out, self.length)?;
        put_gap(out)?;
        self.unfit.put(out)
    }
}

// What a call says.
pub(crate) trait Said: Copy {
    fn put(&self, out: &mut impl Write) -> io::Result<()>;
}

// Number and place, 0 and 0 of what is accepted, and what is told of that.
impl<T: Told> Said for Result<T, Refused> {
    fn put(&self, out: &mut impl Write) -> io::Result<()> {
        match self {
            Ok(told) => {
                out.write_all(b"0 0")?;
                told.put_words(out)
            }
            Err(refused) => {
                let number = u8::from(refused.why);
                put_decimal(out, usize::from(number))?;
                put_length(out, refused.place)?;
                out.write_all(T::ABSENT.as_bytes())
            }
        }
    }
}

// Is there a number, and which? 0 where there is none.
impl Said for Option<usize> {
    fn put(&self, out: &mut impl Write) -> io::Result<()> {
        put_flag(out, self.is_some())?;
        put_length(out, self.unwrap_or(0))
    }
}

// The same, with a number always.
impl Said for Searched {
    fn put(&self, out: &mut impl Write) -> io::Result<()> {
        put_flag(out, self.yes)?;
        put_length(out, self.read)
    }
}

// What is said of the text, and its normal form with a refusal too.
impl<T: Told> Said for Judgement<T> {
    fn put(&self, out: &mut impl Write) -> io::Result<()> {
        self.said.put(out)?;
        put_length(out, self.length)?;
        put_shown(out, &self.form)
    }
}
