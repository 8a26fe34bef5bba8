// w, o: first and second wish, by the calls on two texts and by the outside's. The second text begins at index LEN.
use crate::printed::{Said, put_decimal, put_gap, put_hex, put_length, put_numbers};
use std::io;
use std::io::Write;
use wishes::Wishes;

// Which wish won, number and place of both checks, how long the part is, and its code points.
fn put_wished(out: &mut impl Write, said: Wishes, part: &[u32]) -> io::Result<()> {
    let won = said.won.map_or(0, |wish| u8::from(wish));
    put_decimal(out, usize::from(won))?;
    put_gap(out)?;
    said.first.put(out)?;
    put_gap(out)?;
    said.second.put(out)?;
    put_length(out, part.len())?;
    put_numbers(out, part)
}

// w: by the lent table, by the calls' own, and how long the part is if none won, the first, the second, or a number says that is neither.
pub(crate) fn wishes(
    out: &mut impl Write,
    kanji: &[u32],
    numbers: &[u32],
    at: usize,
) -> io::Result<()> {
    let (first, second) = numbers.split_at(at.min(numbers.len()));
    let part = wishes::wished_part_with(kanji, first, second);
    put_wished(out, wishes::which_won_with(kanji, first, second), part)?;
    out.write_all(b" / ")?;
    let part = wishes::wished_part(first, second);
    put_wished(out, wishes::which_won(first, second), part)?;
    out.write_all(b" /")?;
    for won in [0, 1, 2, 255] {
        put_length(out, wishes::handed_length(won, first, second))?;
    }
    Ok(())
}

// o: what the outside tells: what was returned, and six numbers.
pub(crate) fn told(out: &mut impl Write, numbers: &[u32], at: usize) -> io::Result<()> {
    let (first, second) = numbers.split_at(at.min(numbers.len()));
    let mut answer = [0xAAAAAAAAu32; 6];
    let won = sagebasket::naming::sagebasket_wish(first, second, &mut answer);
    put_hex(out, won)?;
    put_numbers(out, &answer)
}
