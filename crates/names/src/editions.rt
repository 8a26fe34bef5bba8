// What the number of an edition asks for: is there such a one?
ghost use Rattle.std.specs.Prelude.{◌≡◌};
ghost use Rattle.rules.specs.Editions.{is_edition};

// Is there an edition of this number? There are 1 to 4.
#[tactic(auto, unfolding(lists::specs::Tests::within))]
pub fn is_edition(edition: u32) -> bool
    ensures { result ≡ is_edition edition }
{
    matches!(edition, 1..=4)
}
