// The calls on a whole text, as a name by an edition or as a host.
ghost use Rattle.std.specs.Prelude.{◌≡◌, ◌≤◌};
ghost use Rattle.refusals.specs.Refusals.{told};
ghost use Rattle.rules.specs.Editions.{is_edition, edition_of, today};
ghost use Rattle.rules.specs.Hopeful.{hopeful};
ghost use Rattle.names.specs.Calls.{Checks, AsciiForms};
ghost use Rattle.hosts.specs.Hosts.{HostForms};
ghost use Rattle.searches.specs.Searches.{searched};
ghost use Rattle.wishes.specs.Wishes.{won_told, winner, wished, handed_length};
ghost use Rattle.sagebasket.specs.Outside.{flag, of_checked, of_ascii_form, of_host_form, Tells, Counts, Wins};

use crate::telling::{tell_ascii, tell_check, tell_host};
use refusals::Refused;
use wishes::Wish;

// Is there an edition of this number? 1 for yes, 0 for no.
#[unsafe(no_mangle)]
pub extern "C" fn sagebasket_is_edition(edition: u32) -> u32
    ensures { result ≡ flag (is_edition edition) }
{
    u32::from(names::is_edition(edition))
}

// The check: with 0 the normal form is written.
#[unsafe(no_mangle)]
pub extern "C" fn sagebasket_check(
    edition: u32,
    text: &[u32],
    form: &mut [u32; 256],
    answer: &mut [u32; 12],
) -> u32
    ensures { Tells of_checked (Checks (edition_of edition) text.now form.old form.new) answer.new result }
{
    tell_check(edition, text, form, answer)
}

// The whole ASCII form: with 0 it is written.
#[unsafe(no_mangle)]
pub extern "C" fn sagebasket_to_ascii(
    edition: u32,
    text: &[u32],
    ascii: &mut [u8; 192],
    answer: &mut [u32; 12],
) -> u32
    ensures { Tells of_ascii_form (AsciiForms (edition_of edition) text.now ascii.old ascii.new) answer.new result }
{
    tell_ascii(edition, text, ascii, answer)
}

// May the text yet become a name of the edition? 1 for yes, 0 for no.
#[unsafe(no_mangle)]
pub extern "C" fn sagebasket_may_become(edition: u32, text: &[u32]) -> u32
    ensures { result ≡ flag (hopeful (edition_of edition) text.now) }
{
    u32::from(hopes::may_become(edition, text))
}

// Is the text acceptable, by the edition in force? 1 for yes, 0 for no. How many code points were read is put where one number is lent.
#[unsafe(no_mangle)]
pub extern "C" fn sagebasket_acceptable(text: &[u32], read: &mut u32) -> u32
    ensures { Counts (searched today text.now) read.new result }
{
    let said = searches::acceptable(text);
    *read = said.read as u32;
    u32::from(said.yes)
}

// Which wish won: 1 or 2, or 0 for neither.
fn won_number(won: Option<Wish>) -> u8
    ensures { result ≡ won_told won }
{
    match won {
        Some(wish) => u8::from(wish),
        None => 0,
    }
}

// Number and place of what is said of a wish: 0 and 0 where it is accepted.
fn number_and_place(said: Result<(), Refused>) -> (u32, u32)
    requires { (told said).place ≤ 257 }
    ensures { (result.0 ≡ (told said).number) × (result.1 ≡ (told said).place) }
{
    match said {
        Ok(()) => (0, 0),
        Err(refused) => (u32::from(u8::from(refused.why)), refused.place as u32),
    }
}

// First and second wish, by the edition in force: which won, 1 or 2, or 0 for neither. Six numbers tell that, number and place of both checks,
// and how long the part is that stands before the winner's first separator; it begins where the winner's text begins.
#[unsafe(no_mangle)]
pub extern "C" fn sagebasket_wish(first: &[u32], second: &[u32], answer: &mut [u32; 6]) -> u32
    ensures { Wins (wished today first.now second.now) (handed_length (winner today first.now second.now) first.now second.now) answer.new result }
{
    let said = wishes::which_won(first, second);
    let won = won_number(said.won);
    let part = wishes::handed_length(won, first, second);
    let (first_number, first_place) = number_and_place(said.first);
    let (second_number, second_place) = number_and_place(said.second);
    *answer = [
        u32::from(won),
        first_number,
        first_place,
        second_number,
        second_place,
        part as u32,
    ];
    answer[0]
}

// The ASCII form of a nameserver's host name: with 0 it is written.
#[unsafe(no_mangle)]
pub extern "C" fn sagebasket_host_to_ascii(
    text: &[u32],
    ascii: &mut [u8; 255],
    answer: &mut [u32; 12],
) -> u32
    ensures { Tells of_host_form (HostForms today text.now ascii.old ascii.new) answer.new result }
{
    tell_host(text, ascii, answer)
}
