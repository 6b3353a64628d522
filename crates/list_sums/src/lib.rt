// The list call: the sums and the verdicts of a lent list of contaminants, record by record.
#![tactic(auto)]

ghost use Rattle.std.specs.Prelude.{◌≡◌};
ghost use Rattle.sum_rules.specs.ListCall.{sums_of};

use inputs::{Contaminant, Scenario};
use outcome::Refused;
use sum_rules::Sums;

// The answer of a list: the plan, the first state, a step for each record in its order, and the sums of the last state.
pub fn sums_of_list(s: Scenario, medium: u32, list: &[Contaminant]) -> Result<Sums, Refused>
    ensures { result ≡ sums_of s medium list.now }
{
    let p = shares::begin(s, medium, list.len())?;
    let mut t = sums::first();
    for r in list {
        t = sums::step(&p, t, *r)?;
    }
    Ok(sums::finish(&p, t))
}
