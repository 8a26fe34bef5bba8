// The calls on a nameserver's host name: judge and ASCII form, by the edition in force. Each takes any text and any lent buffer, says by
// itself whether the text is fit, and writes nothing where it refuses. Its meaning is defined in `rules` (specs/Hosts) and, with 14 and 19, here in specs/Hosts.
// What the coder does is known by its stated answers alone. A call `.._with` is lent the table of kanji; the call without names it itself.
#![tactic(auto)]

mod forms;
mod judges;
mod labelled;

pub use forms::{to_ascii, to_ascii_with};
pub use judges::{judge, judge_with};
use rules::Asks;

// What a host asks of each of its labels: an ASCII one has a character at least, and hyphens in the third and fourth places are refused in
// every one.
pub(crate) const OF_HOST: Asks = Asks {
    least: 1,
    every_pair: true,
};

// The most octets of a joined ASCII form, and the room that it asks for.
pub(crate) const MOST: usize = 253;

pub(crate) const ROOM: usize = 255;
