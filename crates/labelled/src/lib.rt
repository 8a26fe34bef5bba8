// A form by its labels: how many there are and where they end, and what rules 5 to 12 and 17 say of the labels of a name. Each call takes
// any form, any edition where it asks by one, and says all of its result. 25 is not among its numbers: whether there is such an edition is
// asked by who refuses with it. Its meaning is defined in `rules` (specs/Rules: by_labels), and where the labels end here in specs/Cuts.
#![tactic(auto)]

mod cuts;
mod verdicts;

pub use cuts::label_ends;
use rules::Asks;
pub use verdicts::name_rules_with;

// What a name asks of its leftmost label: an ASCII one has so many characters at least, and hyphens in the third and fourth places are
// refused in an ASCII one, not in every one.
pub const OF_NAME: Asks = Asks {
    least: 3,
    every_pair: false,
};

// How many labels a form has; and where the first and the second of them end, where another follows.
#[derive(Clone, Copy, PartialEq, Eq, Debug)]
pub enum Cut {
    One,
    Two(usize),
    Three(usize, usize),
    More(usize, usize),
}
