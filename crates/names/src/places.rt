// Where the labels of a normal form stand. Check and judge tell it.
ghost use Rattle.std.specs.Prelude.{◌≡◌};
ghost use Rattle.rules.specs.Labels.{labels};
ghost use Rattle.rules.specs.Places.{label_places};
ghost use Rattle.names.specs.Steps.{TwoOrThree};

use labelled::{Cut, label_ends};
use rules::LabelPlaces;

// Where the labels stand of a form that has two or three.
#[tactic(auto, using(labelled::proofs::Cutting::two_within, labelled::proofs::Cutting::three_first, labelled::proofs::Cutting::three_within))]
pub(crate) fn label_places(form: &[u32]) -> LabelPlaces
    requires { TwoOrThree form.now }
    ensures { result ≡ label_places (labels form.now) }
{
    let n = form.len();
    match label_ends(form) {
        Cut::Two(a) => {
            let p = a + 1;
            LabelPlaces {
                count: 2,
                starts: [0, p, 0],
                lengths: [a, n - p, 0],
            }
        }
        Cut::Three(a, b) => {
            let p = a + 1;
            let q = b + 1;
            LabelPlaces {
                count: 3,
                starts: [0, p, q],
                lengths: [a, b - p, n - q],
            }
        }
        Cut::One | Cut::More(..) => unreachable!(),
    }
}
