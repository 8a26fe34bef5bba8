// The calls on slices: places in a text, two lists, and the fields of a line.
use crate::lent;
use crate::printed::{put_decimal, put_flag, put_gap, put_length};
use lines::Stretch;
use std::io;
use std::io::Write;

// P: where the characters of a normal form began, from the first to that of index `last`.
pub(crate) fn places(out: &mut impl Write, text: &[u32], last: usize) -> io::Result<()> {
    for k in 0..=last {
        if k > 0 {
            put_gap(out)?;
        }
        put_decimal(out, normal::place_of(text, k).unwrap_or(0))?;
    }
    Ok(())
}

// T: two lists, the second from index `at` on. Are they the same; which numbers does the first hold; and it is copied to a buffer as
// long as the second, of at most 300 entries.
pub(crate) fn two_lists(out: &mut impl Write, numbers: &[u32], at: usize) -> io::Result<()> {
    let (list, other) = numbers.split_at(at.min(numbers.len()));
    put_flag(out, lists::same(list, other))?;
    for x in numbers {
        put_flag(out, lists::holds(list, *x))?;
    }
    let mut buffer: [u32; 300] = lent::filled();
    let lent = &mut buffer[..other.len().min(300)];
    lists::copy(list, lent);
    lent::put_changed(out, lent)
}

// Where a field starts and ends, and where reading goes on, a space before each.
fn put_field(out: &mut impl Write, field: Stretch) -> io::Result<()> {
    put_length(out, field.start)?;
    put_length(out, field.end)?;
    put_length(out, field.next)
}

// F: where the only tab of a line is, or -; the field from `at` on, the first two by one line reader, and whether the whole is an id.
// `fields` goes by the two calls on a reader.
pub(crate) fn fields(out: &mut impl Write, line: &[u8], at: usize) -> io::Result<()> {
    match lines::split(line) {
        Some(tab) => put_decimal(out, tab)?,
        None => out.write_all(b"-")?,
    }
    put_field(out, lines::field_at(line, at))?;
    let both = lines::fields(line);
    put_field(out, both.id)?;
    put_field(out, both.name)?;
    put_gap(out)?;
    put_flag(out, lines::is_id(line))
}
