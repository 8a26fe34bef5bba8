// The calls that take their input bit by bit: the live check and the batch.
use crate::printed::{put_flag, put_gap, put_hex};
use characters::Edition;
use live::Live;
use std::io;
use std::io::Write;

// How many bytes of a batch are fed at once: fewer than a line has, so that lines are carried from piece to piece.
const PIECE: usize = 7;

// The state that the code points lead to, from the fresh one of an edition.
pub(crate) fn typed(edition: u32, text: &[u32]) -> Live {
    text.iter()
        .fold(Live::fresh(edition), |state, c| state.step(*c))
}

// M: may it yet become a name? The live check after each code point, from none on; then the other calls that say so, on the whole text.
pub(crate) fn hope(out: &mut impl Write, edition: &Edition, text: &[u32]) -> io::Result<()> {
    let Edition { kanji, number } = *edition;
    let mut state = Live::fresh(number);
    put_flag(out, state.may_become_with(kanji))?;
    for c in text {
        state = state.step(*c);
        put_flag(out, state.may_become_with(kanji))?;
    }
    put_gap(out)?;
    put_flag(out, hopes::may_become_with(edition, text))?;
    put_flag(out, hopes::may_become(number, text))?;
    put_flag(out, state.may_become())
}

// The first n octets of what a batch was lent, a gap before each: none before the first of all.
fn put_reply(out: &mut impl Write, reply: &[u8], n: usize, gap: &mut &[u8]) -> io::Result<()> {
    for b in reply.iter().take(n) {
        out.write_all(gap)?;
        put_hex(out, u32::from(*b))?;
        *gap = b" ";
    }
    Ok(())
}

// B: the batch, fed in pieces, each with all of `reply` for its answers. What a feed left of its piece is fed again. That it used some of the
// piece and no more is its own statement; here it is tested, which is shorter than citing it, and the batch would end where it failed.
pub(crate) fn whole_batch(out: &mut impl Write, kanji: &[u32], octets: &[u8]) -> io::Result<()> {
    let mut reply = [0u8; 300];
    let mut gap: &[u8] = b"";
    let mut line = batch::stream::new();
    let mut rest = octets;
    while !rest.is_empty() {
        let piece = &rest[..rest.len().min(PIECE)];
        let fed = batch::stream::feed_with(kanji, line, piece, &mut reply);
        put_reply(out, &reply, fed.wrote, &mut gap)?;
        line = fed.line;
        if fed.used == 0 || piece.len() < fed.used {
            break;
        }
        rest = &rest[fed.used..];
    }
    let last = batch::stream::finish_with(kanji, line, &mut reply);
    put_reply(out, &reply, last.unwrap_or(0), &mut gap)
}
