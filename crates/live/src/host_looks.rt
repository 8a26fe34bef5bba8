// A look at the typed text as a nameserver's host name, from the same state: the text is handed to `hosts`, which stay with the edition in
// force, whichever the state was given. Its meaning is defined in specs/HostLooks; that what it shows is what the nightly rules of a host say is proofs/Hosts.
ghost use Rattle.std.specs.Prelude.{◌≡◌};
ghost use Rattle.rules.specs.Editions.{today, today_with};
ghost use Rattle.hosts.specs.Hosts.{host_told};
ghost use Rattle.live.specs.HostLooks.{host_looked};

use crate::{Live, no_text};
use fronts::Judgement;
use refusals::Refusal;

impl Live {
    // A look, with the table of kanji lent.
    pub fn look_host_with(self, kanji: &[u32]) -> Judgement<()>
        ensures { host_told result ≡ host_looked (today_with kanji.now) self }
    {
        match self.text.get(..self.count) {
            Some(text) => hosts::judge_with(kanji, text),
            None => no_text(Refusal::TooLong.at(256)),
        }
    }

    pub fn look_host(self) -> Judgement<()>
        ensures { host_told result ≡ host_looked today self }
    {
        let kanji = characters::kanji_table();
        self.look_host_with(kanji)
    }
}
