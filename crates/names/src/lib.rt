// The calls on a name: judge, check, whole ASCII form, and is there such an edition. Each takes an edition, any text and any lent buffer,
// says by itself whether they are fit, and writes nothing where it refuses. Its meaning is defined in `rules` (specs/Rules,
// Editions, Kinds, Places) and here in specs/Calls. A call `.._with` is lent the edition with its table of kanji, so that a program names that
// table once; the call without takes the edition's number, any number, and names the table itself.
#![tactic(auto)]

mod checks;
mod editions;
mod judges;
mod places;
mod usual;
mod whole;

pub use checks::{check, check_with};
pub use editions::is_edition;
pub use judges::{judge, judge_with};
use rules::{Class, Kinds, LabelPlaces};
pub use whole::{to_ascii, to_ascii_with};

// What is said of a name that is accepted: its class, and where its labels stand in its normal form.
#[derive(Clone, Copy)]
pub struct Accepted {
    pub class: Class,
    pub labels: LabelPlaces,
}

// The same where the normal form is written, and how long that is.
#[derive(Clone, Copy)]
pub struct Formed {
    pub class: Class,
    pub labels: LabelPlaces,
    pub length: usize,
}

// What is said of a name whose ASCII form is written: its class, which kinds its leftmost label holds, and how long the form is.
#[derive(Clone, Copy)]
pub struct AsciiName {
    pub class: Class,
    pub kinds: Kinds,
    pub length: usize,
}
