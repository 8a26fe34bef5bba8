// What is asked of the labels of a form: 5 and 6, then label by label 7, 9, 17 and 10, then 14 and 19.
ghost use Rattle.std.specs.Prelude.{◌≡◌, true, false, [], ◌∷◌, ◌++◌, ◌≤◌, ltb, length};
ghost use Rattle.lists.specs.Tests.{all_of, any_of};
ghost use Rattle.lists.specs.Rows.{first};
ghost use Rattle.refusals.specs.Refusals.{told};
ghost use Rattle.rules.specs.Labels.{period, labels};
ghost use Rattle.rules.specs.Permits.{is_empty};
ghost use Rattle.rules.specs.Rules.{unfit};
ghost use Rattle.rules.specs.Hosts.{each_rows, host_rows};
ghost use Rattle.rules.specs.Editions.{permits};
ghost use Rattle.ascii.specs.Ascii.{writable};
ghost use Rattle.hosts.specs.Hosts.{coded_rows, total_row};
ghost use Rattle.hosts.specs.Steps.{first_label, octets};

use crate::{MOST, OF_HOST};
use ascii::label_form;
use characters::Edition;
use labels::label_rule_with;
use refusals::{Refusal, Refused};

const PERIOD: u32 = 0x2E;

// Between two labels?
pub(crate) fn is_period(c: &u32) -> bool
    ensures { result ≡ period c.now }
{
    *c == PERIOD
}

// Fewer than three labels?
fn few_labels(form: &[u32]) -> bool
    ensures { result ≡ ltb (length (labels form.now)) 3 }
{
    form.split(is_period).take(3).count() < 3
}

// The index of the first empty label.
fn first_empty(form: &[u32]) -> Option<usize>
    ensures { result ≡ first_label is_empty (labels form.now) }
{
    form.split(is_period).position(|label| label.is_empty())
}

// 7, 9, 17 and 10, of the first label to which one of them applies.
fn each_rule(edition: &Edition, form: &[u32]) -> Result<(), Refused>
    ensures { told result ≡ first (each_rows (permits edition.now) 0 (labels form.now)) }
{
    for (i, label) in form.split(is_period).enumerate() {
        label_rule_with(edition, label, OF_HOST, i)?;
    }
    Ok(())
}

// How many octets the ASCII form of a label has, if the coder takes it: it is put into a scratch, and they are counted.
fn octets_of(edition: &Edition, label: &[u32]) -> Option<usize>
    requires { writable (permits edition.now) label.now ≡ true }
    ensures { result ≡ octets (permits edition.now) label.now }
{
    let mut scratch = [0; 63];
    label_form(label, &mut scratch).ok()
}

// 19, of a count of octets.
fn total_rule(total: usize) -> Result<(), Refused>
    ensures { told result ≡ first (total_row total ∷ []) }
{
    if MOST < total {
        return Err(Refusal::Over253.at(0));
    }
    Ok(())
}

// 14 and 19: the octets of all labels and of the periods between them are counted before any is written.
fn coded_rule(edition: &Edition, form: &[u32]) -> Result<(), Refused>
    requires { (all_of (writable (permits edition.now)) (labels form.now) ≡ true) × (length form.now ≤ 256) }
    ensures { told result ≡ first (coded_rows (permits edition.now) form.now) }
{
    // with a period after each label
    let mut total = 0;
    for (i, label) in form.split(is_period).enumerate() {
        let Some(octets) = octets_of(edition, label) else {
            return Err(Refusal::Over63.at(i));
        };
        total += octets + 1;
    }
    total_rule(total - 1)
}

// 5 to 19, of a form that holds nothing unfit.
pub(crate) fn host_rules(edition: &Edition, form: &[u32]) -> Result<(), Refused>
    requires { (any_of (unfit (permits edition.now)) form.now ≡ false) × (length form.now ≤ 256) }
    ensures { told result ≡ first (host_rows (permits edition.now) (labels form.now) ++ coded_rows (permits edition.now) form.now) }
{
    if few_labels(form) {
        return Err(Refusal::LabelCount.at(0));
    }
    if let Some(i) = first_empty(form) {
        return Err(Refusal::EmptyLabel.at(i));
    }
    each_rule(edition, form)?;
    coded_rule(edition, form)
}
