// The lent buffers: what stands in one before a call, and what of it a call changed.
use crate::printed::put_number;
use std::io;
use std::io::Write;

// What a buffer lends: code points or octets.
pub(crate) trait Entry: Copy + PartialEq + Into<u32> {
    // What the entry at i holds before a call. A lent buffer of code points has at most 300 entries, so no two hold the same.
    fn before(i: usize) -> Self;
}

impl Entry for u32 {
    fn before(i: usize) -> u32 {
        0xAAAAAAAA - (i % 1024) as u32
    }
}

impl Entry for u8 {
    fn before(i: usize) -> u8 {
        255 - (i % 16) as u8
    }
}

// Puts into a buffer what it holds before a call.
pub(crate) fn fill<T: Entry>(lent: &mut [T]) {
    for (i, x) in lent.iter_mut().enumerate() {
        *x = T::before(i);
    }
}

// Memory to lend.
pub(crate) fn filled<T: Entry, const N: usize>() -> [T; N] {
    let mut lent = [T::before(0); N];
    fill(&mut lent);
    lent
}

// The entries up to the last one that was changed, a space before each, and - for one that holds what it held before.
pub(crate) fn put_changed<T: Entry>(out: &mut impl Write, lent: &[T]) -> io::Result<()> {
    let last = lent
        .iter()
        .enumerate()
        .rposition(|(i, x)| *x != T::before(i));
    let n = last.map_or(0, |i| i + 1);
    for (i, x) in lent[..n].iter().enumerate() {
        if *x == T::before(i) {
            out.write_all(b" -")?;
        } else {
            let number: u32 = (*x).into();
            put_number(out, number)?;
        }
    }
    Ok(())
}
