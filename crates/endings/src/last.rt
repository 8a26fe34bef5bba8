// The last label, "jp", and its beginnings.
ghost use Rattle.std.specs.Prelude.{◌≡◌};
ghost use Rattle.lists.specs.Tests.{same};
ghost use Rattle.rules.specs.Rules.{jp};
ghost use Rattle.rules.specs.Hopeful.{begins};

// Does the label begin the whole one?
pub(crate) fn begins(label: &[u32], whole: &[u32]) -> bool
    ensures { result ≡ begins label.now whole.now }
{
    label.len() <= whole.len() && lists::same(label, &whole[..label.len()])
}

const JP: &[u32] = &[0x6A, 0x70];

pub fn is_jp(label: &[u32]) -> bool
    ensures { result ≡ same label.now jp }
{
    lists::same(label, JP)
}

// Does the label begin "jp"?
pub fn begins_jp(label: &[u32]) -> bool
    ensures { result ≡ begins label.now jp }
{
    begins(label, JP)
}
