// The rules of a name, as definitions and theorems: the registry's grammar, document 01's ordered table of refusals, the
// second reader of labels, and that the three agree but for the names that pretend to be encoded (17); and which texts may yet
// become a name. Beside them grammar and rules of a nameserver's host name, but for what needs the coder (specs/Hosts). Every
// call that judges a name is a thin layer over `rules` (specs/Rules), and `may_become` over `hopeful` (specs/Hopeful). Which
// kinds of Japanese characters a label holds stands in specs/Kinds, and where labels stand in a normal form in specs/Places.
// It has no call of its own: only the types that the definitions and the calls share, and the number of the edition in force.
#![tactic(auto)]

// The edition in force (specs/Editions).
pub const IN_FORCE: u32 = 4;

// The class of an accepted name.
#[derive(Clone, Copy, PartialEq, Eq, Debug)]
pub enum Class {
    General,
    Prefecture,
}

// Which kinds of Japanese characters a label holds.
#[derive(Clone, Copy)]
pub struct Kinds {
    pub hiragana: bool,
    pub katakana: bool,
    pub kanji: bool,
    pub sign: bool,
}

// Where the labels of a normal form stand: how many there are, and start and length of each of the first three, 0 where there is none.
#[derive(Clone, Copy)]
pub struct LabelPlaces {
    pub count: usize,
    pub starts: [usize; 3],
    pub lengths: [usize; 3],
}

// What a family of names asks of a label: how many characters an ASCII one has at least, and whether hyphens in the third and fourth places
// are refused in every label or in an ASCII one alone.
#[derive(Clone, Copy)]
pub struct Asks {
    pub least: usize,
    pub every_pair: bool,
}

// What the second reader has seen of a label: how many characters, and whether one is Japanese, the middle dot, a Japanese
// character other than the three exceptions.
#[derive(Clone, Copy)]
pub struct Seen {
    pub count: usize,
    pub ja: bool,
    pub dot: bool,
    pub ordinary: bool,
}
