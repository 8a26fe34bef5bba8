// Where the labels of a form end: the periods are looked for from the left, up to the third.
ghost use Rattle.std.specs.Prelude.{◌≡◌, length};
ghost use Rattle.labelled.specs.Cuts.{cut_told, ends};

use crate::Cut;
use labels::label_end;

pub fn label_ends(form: &[u32]) -> Cut
    ensures { cut_told (length form.now) result ≡ ends form.now }
{
    let n = form.len();
    let first = label_end(form, 0);
    if first >= n {
        return Cut::One;
    }
    let second = label_end(form, first + 1);
    if second >= n {
        return Cut::Two(first);
    }
    if label_end(form, second + 1) >= n {
        return Cut::Three(first, second);
    }
    Cut::More(first, second)
}
