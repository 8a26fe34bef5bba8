// The labels that end a name: "jp", and the prefecture labels of an edition, each whole or only begun. Each call takes any label, and any
// edition, and says yes or no of it. Its meaning is defined in `rules` (specs/Rules, Editions, Hopeful).
#![tactic(auto)]

mod last;
mod middles;
mod prefectures;

pub use last::{begins_jp, is_jp};
pub use middles::{begins_prefecture, is_prefecture};
