// The archive for C: the calls of the outside once more, under the names of the header. Each is the call of `sagebasket` of the same
// name, with the same statement; what a statement cites is defined there.
#![tactic(auto)]

ghost use Rattle.std.specs.Prelude.{◌≡◌};
ghost use Rattle.rules.specs.Editions.{is_edition, edition_of, today};
ghost use Rattle.rules.specs.Hopeful.{hopeful};
ghost use Rattle.names.specs.Calls.{Checks, AsciiForms};
ghost use Rattle.hosts.specs.Hosts.{HostForms};
ghost use Rattle.searches.specs.Searches.{searched};
ghost use Rattle.wishes.specs.Wishes.{winner, wished, handed_length};
ghost use Rattle.sagebasket.specs.Outside.{flag, of_checked, of_ascii_form, of_host_form, Tells, Counts, Wins, of_encoded, of_decoded, OfUtf8, held, held_text, of_judged, of_host_judged, Shows};
ghost use Rattle.punycode.specs.Calls.{Encodes, Decodes};
ghost use Rattle.lists.specs.Front.{Puts};
ghost use Rattle.answer.specs.Answer.{answer_to};
ghost use Rattle.live.specs.Live.{fresh, stepped, looked, hoped};
ghost use Rattle.live.specs.HostLooks.{host_looked};

// Is there an edition of this number? 1 for yes, 0 for no.
#[unsafe(no_mangle)]
pub extern "C" fn sagebasket_is_edition(edition: u32) -> u32
    ensures { result ≡ flag (is_edition edition) }
{
    sagebasket::naming::sagebasket_is_edition(edition)
}

// The check: with 0 the normal form is written.
#[unsafe(no_mangle)]
pub extern "C" fn sagebasket_check(
    edition: u32,
    text: &[u32],
    form: &mut [u32; 256],
    answer: &mut [u32; 12],
) -> u32
    ensures { Tells of_checked (Checks (edition_of edition) text.now form.old form.new) answer.new result }
{
    sagebasket::naming::sagebasket_check(edition, text, form, answer)
}

// The whole ASCII form: with 0 it is written.
#[unsafe(no_mangle)]
pub extern "C" fn sagebasket_to_ascii(
    edition: u32,
    text: &[u32],
    ascii: &mut [u8; 192],
    answer: &mut [u32; 12],
) -> u32
    ensures { Tells of_ascii_form (AsciiForms (edition_of edition) text.now ascii.old ascii.new) answer.new result }
{
    sagebasket::naming::sagebasket_to_ascii(edition, text, ascii, answer)
}

// May the text yet become a name of the edition? 1 for yes, 0 for no.
#[unsafe(no_mangle)]
pub extern "C" fn sagebasket_may_become(edition: u32, text: &[u32]) -> u32
    ensures { result ≡ flag (hopeful (edition_of edition) text.now) }
{
    sagebasket::naming::sagebasket_may_become(edition, text)
}

// Is the text acceptable, by the edition in force? 1 for yes, 0 for no. How many code points were read is put where one number is lent.
#[unsafe(no_mangle)]
pub extern "C" fn sagebasket_acceptable(text: &[u32], read: &mut u32) -> u32
    ensures { Counts (searched today text.now) read.new result }
{
    sagebasket::naming::sagebasket_acceptable(text, read)
}

// First and second wish, by the edition in force: which won, 1 or 2, or 0 for neither. Six numbers tell that, number and place of both checks,
// and how long the part is that stands before the winner's first separator; it begins where the winner's text begins.
#[unsafe(no_mangle)]
pub extern "C" fn sagebasket_wish(first: &[u32], second: &[u32], answer: &mut [u32; 6]) -> u32
    ensures { Wins (wished today first.now second.now) (handed_length (winner today first.now second.now) first.now second.now) answer.new result }
{
    sagebasket::naming::sagebasket_wish(first, second, answer)
}

// The ASCII form of a nameserver's host name: with 0 it is written.
#[unsafe(no_mangle)]
pub extern "C" fn sagebasket_host_to_ascii(
    text: &[u32],
    ascii: &mut [u8; 255],
    answer: &mut [u32; 12],
) -> u32
    ensures { Tells of_host_form (HostForms today text.now ascii.old ascii.new) answer.new result }
{
    sagebasket::naming::sagebasket_host_to_ascii(text, ascii, answer)
}

// The encoding of a label, "xn--" and what follows: with 0 it is written.
#[unsafe(no_mangle)]
pub extern "C" fn sagebasket_encode(
    label: &[u32],
    ascii: &mut [u8; 63],
    answer: &mut [u32; 12],
) -> u32
    ensures { Tells of_encoded (Encodes label.now ascii.old ascii.new) answer.new result }
{
    sagebasket::coding::sagebasket_encode(label, ascii, answer)
}

// The label that octets encode: with 0 it is written.
#[unsafe(no_mangle)]
pub extern "C" fn sagebasket_decode(
    ascii: &[u8],
    label: &mut [u32; 63],
    answer: &mut [u32; 12],
) -> u32
    ensures { Tells of_decoded (Decodes ascii.now label.old label.new) answer.new result }
{
    sagebasket::coding::sagebasket_decode(ascii, label, answer)
}

// The check of a name in UTF-8; 16 where the octets are not UTF-8.
#[unsafe(no_mangle)]
pub extern "C" fn sagebasket_check_utf8(
    edition: u32,
    name: &[u8],
    form: &mut [u32; 256],
    answer: &mut [u32; 12],
) -> u32
    ensures { OfUtf8 name.now (λ text. Tells of_checked (Checks (edition_of edition) text form.old form.new) answer.new result) form.old form.new answer.new result }
{
    sagebasket::octets::sagebasket_check_utf8(edition, name, form, answer)
}

// The whole ASCII form of a name in UTF-8; 16 likewise.
#[unsafe(no_mangle)]
pub extern "C" fn sagebasket_to_ascii_utf8(
    edition: u32,
    name: &[u8],
    ascii: &mut [u8; 192],
    answer: &mut [u32; 12],
) -> u32
    ensures { OfUtf8 name.now (λ text. Tells of_ascii_form (AsciiForms (edition_of edition) text ascii.old ascii.new) answer.new result) ascii.old ascii.new answer.new result }
{
    sagebasket::octets::sagebasket_to_ascii_utf8(edition, name, ascii, answer)
}

// The ASCII form of a host name in UTF-8; 16 likewise.
#[unsafe(no_mangle)]
pub extern "C" fn sagebasket_host_to_ascii_utf8(
    name: &[u8],
    ascii: &mut [u8; 255],
    answer: &mut [u32; 12],
) -> u32
    ensures { OfUtf8 name.now (λ text. Tells of_host_form (HostForms today text ascii.old ascii.new) answer.new result) ascii.old ascii.new answer.new result }
{
    sagebasket::octets::sagebasket_host_to_ascii_utf8(name, ascii, answer)
}

// The answer line that `desk` writes for a line, with its LF; how many octets it has.
#[unsafe(no_mangle)]
pub extern "C" fn sagebasket_line(line: &[u8], out: &mut [u8; 256]) -> u32
    ensures { Puts (answer_to today line.now) out.old out.new 0 result }
{
    sagebasket::octets::sagebasket_line(line, out)
}

// It has read nothing, and is given its edition, any number.
#[unsafe(no_mangle)]
pub extern "C" fn sagebasket_live_fresh(edition: u32, state: &mut [u32; 258])
    ensures { held state.new ≡ fresh edition }
{
    sagebasket::typing::sagebasket_live_fresh(edition, state);
}

// One code point more.
#[unsafe(no_mangle)]
pub extern "C" fn sagebasket_live_step(state: &mut [u32; 258], c: u32)
    ensures { held state.new ≡ stepped (held state.old) c }
{
    sagebasket::typing::sagebasket_live_step(state, c);
}

// A look: what the nightly rules of the edition say of the text typed, and its normal form with zeros past it.
#[unsafe(no_mangle)]
pub extern "C" fn sagebasket_live_look(
    state: &[u32; 258],
    form: &mut [u32; 256],
    answer: &mut [u32; 12],
) -> u32
    ensures { Shows (of_judged (looked edition_of (held state.now))) (looked edition_of (held state.now)).form form.new answer.new result }
{
    sagebasket::typing::sagebasket_live_look(state, form, answer)
}

// A look at it as a nameserver's host name.
#[unsafe(no_mangle)]
pub extern "C" fn sagebasket_live_look_host(
    state: &[u32; 258],
    form: &mut [u32; 256],
    answer: &mut [u32; 12],
) -> u32
    ensures { Shows (of_host_judged (host_looked today (held state.now))) (host_looked today (held state.now)).form form.new answer.new result }
{
    sagebasket::typing::sagebasket_live_look_host(state, form, answer)
}

// May the text typed yet become a name of the edition? 1 for yes, 0 for no.
#[unsafe(no_mangle)]
pub extern "C" fn sagebasket_live_may_become(state: &[u32; 258]) -> u32
    ensures { result ≡ flag (hoped edition_of (held state.now)) }
{
    sagebasket::typing::sagebasket_live_may_become(state)
}

// The whole ASCII form of the text typed.
#[unsafe(no_mangle)]
pub extern "C" fn sagebasket_live_to_ascii(
    state: &[u32; 258],
    ascii: &mut [u8; 192],
    answer: &mut [u32; 12],
) -> u32
    ensures { Tells of_ascii_form (AsciiForms (edition_of (held state.now).edition) (held_text (held state.now)) ascii.old ascii.new) answer.new result }
{
    sagebasket::typing::sagebasket_live_to_ascii(state, ascii, answer)
}

// The ASCII form of the text typed as a host.
#[unsafe(no_mangle)]
pub extern "C" fn sagebasket_live_host_to_ascii(
    state: &[u32; 258],
    ascii: &mut [u8; 255],
    answer: &mut [u32; 12],
) -> u32
    ensures { Tells of_host_form (HostForms today (held_text (held state.now)) ascii.old ascii.new) answer.new result }
{
    sagebasket::typing::sagebasket_live_host_to_ascii(state, ascii, answer)
}
