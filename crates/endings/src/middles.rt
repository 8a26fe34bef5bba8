// The middle label of a prefecture name: one of the 94 of document 004, or of those that an edition has, which stand one after the other
// in one table.
ghost use Rattle.std.specs.Prelude.{◌≡◌, ◌≤◌, Bool, true, List, ℕ, length};
ghost use Rattle.std.specs.Fn.{FnReturnsAt};
ghost use Rattle.lists.specs.Tests.{any_of, same};
ghost use Rattle.rules.specs.Editions.{middles_in};
ghost use Rattle.rules.specs.Hopeful.{begins};
ghost use Rattle.endings.specs.Parts.{Computes, parts, starts_rise, starts_in};

use crate::last::begins;
use crate::prefectures::{LABELS, STARTS};

// Does the test hold of one of the parts into which the starts cut the table?
fn any_part<F: Fn(&[u32]) -> bool>(table: &[u32], starts: &[usize], test: F) -> bool
    requires rise { starts_rise (length table.now) starts.now ≡ true }
    requires called { F.IsAlwaysCallable test }
    ensures { (f : List ℕ → Bool) → Computes (FnReturnsAt F.Fn test) f → result ≡ any_of f (parts table.now starts.now) }
{
    for cut in starts.windows(2) {
        if test(&table[cut[0]..cut[1]]) {
            return true;
        }
    }
    false
}

// How many of the starts an edition has, the end of its last label with them: editions 1 and 2 have no label, edition 3 the 47 Latin ones,
// which stand first in the table.
#[tactic(auto, unfolding(crate::specs::Parts::starts_in, lists::specs::Tests::within))]
fn starts_in(edition: u32) -> usize
    ensures number { result ≡ starts_in edition }
    ensures inside { result ≤ 95 }
{
    match edition {
        1 | 2 => 0,
        3 => 48,
        _ => 95,
    }
}

// Does the test hold of one of the prefecture labels of an edition?
fn any_middle<F: Fn(&[u32]) -> bool>(edition: u32, test: F) -> bool
    requires { F.IsAlwaysCallable test }
    ensures { (f : List ℕ → Bool) → Computes (FnReturnsAt F.Fn test) f → result ≡ any_of f (middles_in edition) }
{
    any_part(&LABELS, &STARTS[..starts_in(edition)], test)
}

// Is the label a prefecture label of the edition?
pub fn is_prefecture(edition: u32, label: &[u32]) -> bool
    ensures { result ≡ any_of (same label.now) (middles_in edition) }
{
    any_middle(edition, |part| lists::same(label, part))
}

// Does it begin one?
pub fn begins_prefecture(edition: u32, label: &[u32]) -> bool
    ensures { result ≡ any_of (begins label.now) (middles_in edition) }
{
    any_middle(edition, |part| begins(label, part))
}
