// The calls on a text whose answer is told in numbers: the text is a caller's, comes out of UTF-8 or was typed.
ghost use Rattle.rules.specs.Editions.{edition_of, today};
ghost use Rattle.names.specs.Calls.{Checks, AsciiForms};
ghost use Rattle.hosts.specs.Hosts.{HostForms};
ghost use Rattle.sagebasket.specs.Outside.{of_checked, of_ascii_form, of_host_form, Tells};

use crate::numbers::{NO_KINDS, NO_LABELS, tell_name, tell_refusal, tell_written};

pub(crate) fn tell_check(
    edition: u32,
    text: &[u32],
    form: &mut [u32; 256],
    answer: &mut [u32; 12],
) -> u32
    ensures { Tells of_checked (Checks (edition_of edition) text.now form.old form.new) answer.new result }
{
    match names::check(edition, text, form) {
        Ok(name) => tell_name(name.class, NO_KINDS, name.length, name.labels, answer),
        Err(refusal) => tell_refusal(refusal, 0, answer),
    }
}

pub(crate) fn tell_ascii(
    edition: u32,
    text: &[u32],
    ascii: &mut [u8; 192],
    answer: &mut [u32; 12],
) -> u32
    ensures { Tells of_ascii_form (AsciiForms (edition_of edition) text.now ascii.old ascii.new) answer.new result }
{
    match names::to_ascii(edition, text, ascii) {
        Ok(name) => tell_name(name.class, name.kinds, name.length, NO_LABELS, answer),
        Err(refused) => tell_refusal(refused, 0, answer),
    }
}

pub(crate) fn tell_host(text: &[u32], ascii: &mut [u8; 255], answer: &mut [u32; 12]) -> u32
    ensures { Tells of_host_form (HostForms today text.now ascii.old ascii.new) answer.new result }
{
    tell_written(hosts::to_ascii(text, ascii), answer)
}
