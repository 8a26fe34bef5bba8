// The live check over a state that the caller holds: 258 numbers, the text typed, how many code points, and the edition (specs/Outside: held).
ghost use Rattle.std.specs.Prelude.{◌≡◌, min, take, get_or};
ghost use Rattle.rules.specs.Editions.{edition_of, today};
ghost use Rattle.names.specs.Calls.{AsciiForms};
ghost use Rattle.hosts.specs.Hosts.{HostForms};
ghost use Rattle.live.specs.Live.{fresh, stepped, looked, hoped};
ghost use Rattle.live.specs.HostLooks.{host_looked};
ghost use Rattle.sagebasket.specs.Outside.{flag, held, held_text, of_judged, of_host_judged, of_ascii_form, of_host_form, Tells, Shows};

use crate::numbers::{NO_KINDS, tell_length, tell_name, tell_refusal};
use crate::telling::{tell_ascii, tell_host};
use characters::Edition;

// It has read nothing, and is given its edition, any number.
#[unsafe(no_mangle)]
pub extern "C" fn sagebasket_live_fresh(edition: u32, state: &mut [u32; 258])
    ensures { held state.new ≡ fresh edition }
{
    *state = [0; 258];
    state[257] = edition;
}

// One code point more.
#[unsafe(no_mangle)]
pub extern "C" fn sagebasket_live_step(state: &mut [u32; 258], c: u32)
    ensures { held state.new ≡ stepped (held state.old) c }
{
    let at = state[256];
    if at < 256 {
        state[at as usize] = c;
        state[256] = at + 1;
    } else {
        state[256] = 257;
    }
}

// The text typed, as it is lent. Past 256 it is 257 entries, whatever they are: the rules look no further.
fn typed(state: &[u32; 258]) -> &[u32]
    ensures { result.now ≡ take (min (get_or state.now 256 0) 257) state.now }
{
    &state[..state[256].min(257) as usize]
}

// A look: what the nightly rules of the edition say of the text typed, and its normal form with zeros past it.
#[unsafe(no_mangle)]
pub extern "C" fn sagebasket_live_look(
    state: &[u32; 258],
    form: &mut [u32; 256],
    answer: &mut [u32; 12],
) -> u32
    ensures { Shows (of_judged (looked edition_of (held state.now))) (looked edition_of (held state.now)).form form.new answer.new result }
{
    let edition = Edition {
        kanji: characters::kanji_table(),
        number: state[257],
    };
    let judged = names::judge_with(&edition, typed(state));
    let shown = judged.form;
    *form = shown;
    match judged.said {
        Ok(name) => tell_name(name.class, NO_KINDS, judged.length, name.labels, answer),
        Err(refused) => tell_refusal(refused, judged.length, answer),
    }
}

// A look at it as a nameserver's host name.
#[unsafe(no_mangle)]
pub extern "C" fn sagebasket_live_look_host(
    state: &[u32; 258],
    form: &mut [u32; 256],
    answer: &mut [u32; 12],
) -> u32
    ensures { Shows (of_host_judged (host_looked today (held state.now))) (host_looked today (held state.now)).form form.new answer.new result }
{
    let judged = hosts::judge_with(characters::kanji_table(), typed(state));
    let shown = judged.form;
    *form = shown;
    match judged.said {
        Ok(()) => tell_length(judged.length, answer),
        Err(refused) => tell_refusal(refused, judged.length, answer),
    }
}

// May the text typed yet become a name of the edition? 1 for yes, 0 for no.
#[unsafe(no_mangle)]
pub extern "C" fn sagebasket_live_may_become(state: &[u32; 258]) -> u32
    ensures { result ≡ flag (hoped edition_of (held state.now)) }
{
    u32::from(hopes::may_become(state[257], typed(state)))
}

// The whole ASCII form of the text typed.
#[unsafe(no_mangle)]
pub extern "C" fn sagebasket_live_to_ascii(
    state: &[u32; 258],
    ascii: &mut [u8; 192],
    answer: &mut [u32; 12],
) -> u32
    ensures { Tells of_ascii_form (AsciiForms (edition_of (held state.now).edition) (held_text (held state.now)) ascii.old ascii.new) answer.new result }
{
    tell_ascii(state[257], typed(state), ascii, answer)
}

// The ASCII form of the text typed as a host.
#[unsafe(no_mangle)]
pub extern "C" fn sagebasket_live_host_to_ascii(
    state: &[u32; 258],
    ascii: &mut [u8; 255],
    answer: &mut [u32; 12],
) -> u32
    ensures { Tells of_host_form (HostForms today (held_text (held state.now)) ascii.old ascii.new) answer.new result }
{
    tell_host(typed(state), ascii, answer)
}
