// O, Y: the calls of the outside, on code points and on octets; LEN says which. The lent memory is what each asks for, filled before.
use crate::lent;
use crate::lent::Entry;
use crate::printed::{put_decimal, put_hex, put_malformed, put_number, put_numbers, put_shown};
use sagebasket::coding::{sagebasket_decode, sagebasket_encode};
use sagebasket::naming::{
    sagebasket_acceptable, sagebasket_check, sagebasket_host_to_ascii, sagebasket_is_edition,
    sagebasket_may_become, sagebasket_to_ascii,
};
use sagebasket::octets::{
    sagebasket_check_utf8, sagebasket_host_to_ascii_utf8, sagebasket_line, sagebasket_to_ascii_utf8,
};
use sagebasket::typing::{
    sagebasket_live_fresh, sagebasket_live_host_to_ascii, sagebasket_live_look,
    sagebasket_live_look_host, sagebasket_live_may_become, sagebasket_live_step,
    sagebasket_live_to_ascii,
};
use std::io;
use std::io::Write;

// The memory that a call asks for: an array of code points or of octets.
trait Lent: Drop {
    fn filled() -> Self;

    fn put_changed(&self, out: &mut impl Write) -> io::Result<()>;
}

impl<T: Entry, const N: usize> Lent for [T; N] {
    fn filled() -> [T; N] {
        lent::filled()
    }

    fn put_changed(&self, out: &mut impl Write) -> io::Result<()> {
        lent::put_changed(out, self)
    }
}

// Prints what a call returns and its answer, and gives the memory that was lent to it.
fn told<L: Lent, W: Write, F: FnOnce(&mut L, &mut [u32; 12]) -> u32>(
    out: &mut W,
    call: F,
) -> io::Result<L>
    requires { F.IsAlwaysCallable call }
{
    let mut lent = L::filled();
    let mut answer: [u32; 12] = Lent::filled();
    put_hex(out, call(&mut lent, &mut answer))?;
    put_numbers(out, &answer)?;
    Ok(lent)
}

// The same, and what the call changed of that memory.
fn put_told<L: Lent, W: Write, F: FnOnce(&mut L, &mut [u32; 12]) -> u32>(
    out: &mut W,
    call: F,
) -> io::Result<()>
    requires { F.IsAlwaysCallable call }
{
    let lent = told(out, call)?;
    lent.put_changed(out)
}

// The same of a look, and what it shows.
fn put_look<W: Write, F: FnOnce(&mut [u32; 256], &mut [u32; 12]) -> u32>(
    out: &mut W,
    call: F,
) -> io::Result<()>
    requires { F.IsAlwaysCallable call }
{
    let form = told(out, call)?;
    put_shown(out, &form)
}

// The state that the code points lead to, from the fresh one of an edition.
fn typed(edition: u32, text: &[u32]) -> [u32; 258] {
    let mut state = [7u32; 258];
    sagebasket_live_fresh(edition, &mut state);
    for c in text {
        sagebasket_live_step(&mut state, *c);
    }
    state
}

// How many numbers the state has, and these.
fn put_state(out: &mut impl Write, state: &[u32; 258]) -> io::Result<()> {
    put_decimal(out, state.len())?;
    put_shown(out, state)
}

// What is returned, and what is put where one number is lent.
fn put_acceptable(out: &mut impl Write, text: &[u32]) -> io::Result<()> {
    let mut read = 0xAAAAAAAA;
    let yes = sagebasket_acceptable(text, &mut read);
    put_hex(out, yes)?;
    put_number(out, read)
}

// A call on the state that the code points lead to.
fn on_state(out: &mut impl Write, which: usize, state: &[u32; 258]) -> io::Result<()> {
    match which {
        5 => put_look(
            out,
            |form, answer| sagebasket_live_look(state, form, answer),
        ),
        6 => put_look(
            out,
            |form, answer| sagebasket_live_look_host(state, form, answer),
        ),
        7 => put_hex(out, sagebasket_live_may_become(state)),
        8 => put_told(
            out,
            |ascii, answer| sagebasket_live_to_ascii(state, ascii, answer),
        ),
        9 => put_told(
            out,
            |ascii, answer| sagebasket_live_host_to_ascii(state, ascii, answer),
        ),
        _ => put_state(out, state),
    }
}

// O: a call on code points.
pub(crate) fn on_points(
    out: &mut impl Write,
    edition: u32,
    which: usize,
    text: &[u32],
) -> io::Result<()> {
    match which {
        0 => put_told(
            out,
            |form, answer| sagebasket_check(edition, text, form, answer),
        ),
        1 => put_told(
            out,
            |ascii, answer| sagebasket_to_ascii(edition, text, ascii, answer),
        ),
        2 => put_hex(out, sagebasket_may_become(edition, text)),
        3 => put_told(
            out,
            |ascii, answer| sagebasket_host_to_ascii(text, ascii, answer),
        ),
        4 => put_told(out, |ascii, answer| sagebasket_encode(text, ascii, answer)),
        5..=10 => on_state(out, which, &typed(edition, text)),
        11 => put_hex(out, sagebasket_is_edition(edition)),
        12 => put_acceptable(out, text),
        _ => put_malformed(out),
    }
}

// The length of the answer to a line, and the answer.
fn put_line(out: &mut impl Write, octets: &[u8]) -> io::Result<()> {
    let mut reply = <[u8; 256]>::filled();
    put_hex(out, sagebasket_line(octets, &mut reply))?;
    reply.put_changed(out)
}

// Y: a call on octets.
pub(crate) fn on_octets(
    out: &mut impl Write,
    edition: u32,
    which: usize,
    octets: &[u8],
) -> io::Result<()> {
    match which {
        0 => put_told(
            out,
            |form, answer| sagebasket_check_utf8(edition, octets, form, answer),
        ),
        1 => put_told(
            out,
            |ascii, answer| sagebasket_to_ascii_utf8(edition, octets, ascii, answer),
        ),
        2 => put_told(
            out,
            |ascii, answer| sagebasket_host_to_ascii_utf8(octets, ascii, answer),
        ),
        3 => put_told(
            out,
            |label, answer| sagebasket_decode(octets, label, answer),
        ),
        4 => put_line(out, octets),
        _ => put_malformed(out),
    }
}
