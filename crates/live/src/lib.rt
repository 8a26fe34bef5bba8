// The live check: a state that is given an edition, takes one code point at a time and shows, after each, what the nightly rules of that
// edition say of the text so far.
// Beside it stands whether that text may yet become a name. It keeps the text and no second set of rules: each call hands the text to
// `names`, to `hopes`, or to `hosts` (src/host_looks). Its meaning is defined in specs/Live; that what it shows is what the nightly rules say is
// proofs/Nightly, and that it says no exactly where no continuation is accepted, proofs/Hope.
#![tactic(auto)]

pub mod host_looks;

ghost use Rattle.std.specs.Prelude.{Err, ◌≡◌, replicate};
ghost use Rattle.rules.specs.Editions.{edition_of, edition_with};
ghost use Rattle.names.specs.Calls.{judge_told};
ghost use Rattle.live.specs.Live.{fresh, stepped, too_long, looked, hoped};

use characters::Edition;
use fronts::Judgement;
use names::Accepted;
use refusals::{Refusal, Refused};

// The edition by which it is judged, any number; the code points typed, and how many: 257 stands for more than 256, however many. An array
// with a count, since a state is handed on by value and nothing is allocated.
#[derive(Clone, Copy)]
pub struct Live {
    pub edition: u32,
    pub text: [u32; 256],
    pub count: usize,
}

// A refusal that is shown with no text.
fn no_text<T>(refused: Refused) -> Judgement<T>
    ensures { result ≡ record { said = Err refused; form = replicate 256 0; length = 0 } }
{
    Judgement {
        said: Err(refused),
        form: [0; 256],
        length: 0,
    }
}

// What is shown from the 257th code point on: 3 at place 256, or 25 where there is no such edition.
fn too_long(known: bool) -> Judgement<Accepted>
    ensures { judge_told result ≡ too_long known }
{
    if known {
        no_text(Refusal::TooLong.at(256))
    } else {
        no_text(Refusal::NoEdition.at(0))
    }
}

impl Live {
    // It has read nothing, and keeps the edition that it is given.
    pub fn fresh(edition: u32) -> Live
        ensures { result ≡ fresh edition }
    {
        Live {
            edition,
            text: [0; 256],
            count: 0,
        }
    }

    pub fn step(mut self, c: u32) -> Live
        ensures { result ≡ stepped self c }
    {
        if self.count < 256 {
            self.text[self.count] = c;
            self.count += 1;
        } else {
            self.count = 257;
        }
        self
    }

    // A look, with the table of kanji lent.
    pub fn look_with(self, kanji: &[u32]) -> Judgement<Accepted>
        ensures { judge_told result ≡ looked (edition_with kanji.now) self }
    {
        let edition = Edition {
            kanji,
            number: self.edition,
        };
        match self.text.get(..self.count) {
            Some(text) => names::judge_with(&edition, text),
            None => too_long(names::is_edition(self.edition)),
        }
    }

    pub fn look(self) -> Judgement<Accepted>
        ensures { judge_told result ≡ looked edition_of self }
    {
        let kanji = characters::kanji_table();
        self.look_with(kanji)
    }

    // May what was typed yet become a name of the edition? The table of kanji is lent.
    pub fn may_become_with(self, kanji: &[u32]) -> bool
        ensures { result ≡ hoped (edition_with kanji.now) self }
    {
        let edition = Edition {
            kanji,
            number: self.edition,
        };
        match self.text.get(..self.count) {
            Some(text) => hopes::may_become_with(&edition, text),
            None => false,
        }
    }

    pub fn may_become(self) -> bool
        ensures { result ≡ hoped edition_of self }
    {
        let kanji = characters::kanji_table();
        self.may_become_with(kanji)
    }
}
