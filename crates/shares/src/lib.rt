// What one record adds to the running sums of both sides, from what a scenario in a medium gives once to every record.
#![tactic(auto)]

mod plan;

ghost use Rattle.std.specs.Prelude.{◌≡◌, true};
ghost use Rattle.inputs.specs.Rules.{scenario_fits};
ghost use Rattle.terms.specs.Side.{TotalSize};
ghost use Rattle.factors.specs.Stands.{Input};
ghost use Rattle.sum_rules.specs.ListCall.{first_refusal};
ghost use Rattle.shares.specs.Plan.{Planned, Begun, Workable, WorkedFor, RunSize, Shared, Addable, Added};

use formulas::Sides;
use inputs::{Class, Contaminant, Medium, Scenario, scenario_refusal};
use outcome::{Refusal, Refused, located};
pub use plan::Plan;
use rounding::{Direction, Number};
use terms::pathways::{Terms, total};

// The most contaminants of a list, as a length.
const MOST: usize = inputs::MOST_CONTAMINANTS as usize;

// A record's upper terms, the sums of its lower terms on each side, and its concentration.
#[derive(Clone, Copy)]
pub struct Worked {
    pub above: Terms,
    pub risk: Number,
    pub hazard: Number,
    pub c: Number,
}

// The running sums of a side, as numbers, and whether a contaminant had a pathway there.
#[derive(Clone, Copy)]
pub struct SideRun {
    pub lower: Number,
    pub upper: Number,
    pub any: bool,
}

// The running sums of both sides.
pub type Runs = Sides<SideRun>;

// The refusal before the first of n records: 1 for their number, 4 and 6 for the scenario and the medium.
fn first_refusal(s: Scenario, medium: u32, n: usize) -> Result<(), Refusal>
    ensures { result ≡ first_refusal s medium n }
{
    let fits = (1 <= n) & (n <= MOST);
    if !fits {
        return Err(Refusal::Length);
    }
    scenario_refusal(s, medium)
}

// The plan of a scenario and a medium that keep their rules.
pub fn planned(s: Scenario, medium: u32) -> Plan
    requires { scenario_fits s medium ≡ true }
    ensures { Planned s medium result }
{
    let f = factors::numbers::scenario_numbers(s);
    let soil_or_water = Medium::of(medium);
    Plan {
        scenario: s,
        medium,
        factors: f,
        up: factors::prepared::prepare(&f, soil_or_water, Direction::Up),
        down: factors::prepared::prepare(&f, soil_or_water, Direction::Down),
    }
}

// The plan for n records, or the refusal before the first of them, in block 0.
pub fn begin(s: Scenario, medium: u32, n: usize) -> Result<Plan, Refused>
    ensures { Begun s medium n result }
{
    located(first_refusal(s, medium, n), 0)?;
    Ok(planned(s, medium))
}

impl Plan {
    // The terms of a record.
    pub fn work(&self, r: Contaminant) -> Worked
        requires { Workable self.now r }
        ensures { WorkedFor self.now r result }
    {
        let medium = Medium::of(self.medium);
        let class = Class::of(r.class);
        let inhalation = self.scenario.inhalation;
        let x = factors::numbers::contaminant_numbers(r, inhalation);
        let above = terms::pathways::terms_of(
            &self.factors,
            &self.up,
            &x,
            medium,
            inhalation,
            class,
            Direction::Up,
        );
        let below = terms::pathways::terms_of(
            &self.factors,
            &self.down,
            &x,
            medium,
            inhalation,
            class,
            Direction::Down,
        );
        let c = factors::numbers::number_of(r.c);
        Worked {
            above,
            risk: total(below.risk, Direction::Down),
            hazard: total(below.hazard, Direction::Down),
            c,
        }
    }
}

impl SideRun {
    // One step of the running sums of a side: the concentration times the lower and the upper term sum, added down and up.
    fn add_share(&mut self, c: Number, lower: Number, upper: Number)
        requires { (Input c × RunSize self.old) × (TotalSize lower × TotalSize upper) }
        ensures { Shared self.old c lower upper self.new }
    {
        let small = c.mul(lower, Direction::Down);
        let great = c.mul(upper, Direction::Up);
        self.lower = self.lower.add(small, Direction::Down);
        self.upper = self.upper.add(great, Direction::Up);
        self.any |= upper.m != 0;
    }
}

// Adds a record, by its terms and the sums of its upper terms.
pub fn add_shares(runs: &mut Runs, w: Worked, risk: Number, hazard: Number)
    requires { Addable runs.old w risk hazard }
    ensures { Added runs.old w risk hazard runs.new }
{
    runs.risk.add_share(w.c, w.risk, risk);
    runs.hazard.add_share(w.c, w.hazard, hazard);
}
