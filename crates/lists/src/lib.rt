// Slices of numbers: compared, searched and copied. Each call takes any slices and says all of its result.
// Its meaning is defined in specs/: Tests (same, elem), Front (written).
#![tactic(auto)]

ghost use Rattle.std.specs.Prelude.{◌≡◌, min, length, take};
ghost use Rattle.lists.specs.Tests.{same, elem};
ghost use Rattle.lists.specs.Front.{written};

// Are the two the same? Entry by entry: the library's `==` of slices is more than twice as large, and the page loads it.
pub fn same(a: &[u32], b: &[u32]) -> bool
    ensures { result ≡ same a.now b.now }
{
    a.len() == b.len() && a.iter().zip(b.iter()).all(|(x, y)| x == y)
}

// Is c in a small table, in any order?
pub fn holds(table: &[u32], c: u32) -> bool
    ensures { result ≡ elem c table.now }
{
    table.contains(&c)
}

// Copies to the start of a buffer what has room there.
pub fn copy(from: &[u32], to: &mut [u32])
    ensures { to.new ≡ written (take (length to.old) from.now) to.old }
{
    let n = from.len().min(to.len());
    to[..n].copy_from_slice(&from[..n]);
}
