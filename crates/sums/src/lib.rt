// Sums of risk and hazard over a list of contaminants, and the verdict of each side.
#![tactic(auto)]

ghost use Rattle.std.specs.Prelude.{◌≡◌, [], Ok};
ghost use Rattle.factors.specs.Widths.{sum_width};
ghost use Rattle.sum_rules.specs.Verdict.{verdict_number, verdict_of};
ghost use Rattle.decimal.specs.Decimal.{decimal_of};
ghost use Rattle.shares.specs.Plan.{no_runs};
ghost use Rattle.sums.specs.State.{Good, Stepped, answer_from, first_of, Advancing, Comparable, SideReady, RunsReady, side_sums_of, reported_of};

use inputs::{Contaminant, Earlier, MOST_CONTAMINANTS, contaminant_fits};
use outcome::{Refusal, Refused, located};
use presence::record_refusal;
use rounding::{Direction, Number};
use shares::{Plan, Runs, SideRun};
use sum_rules::{SideSums, Sums, Verdict};
use terms::pathways::total;

// The state of the list call between two records: the place of the next record, what stands before it, the running
// sums.
#[derive(Clone, Copy)]
pub struct State {
    pub place: u32,
    pub before: Earlier,
    pub runs: Runs,
}

// The number of a verdict.
pub fn verdict_number(v: Verdict) -> u32
    ensures { result ≡ verdict_number v }
{
    match v {
        Verdict::Within => 1,
        Verdict::Above => 2,
        Verdict::Undecided => 3,
        Verdict::NoPathway => 4,
    }
}

// The verdict of a side from its sums and its target, all as numbers.
fn judge(any: bool, lower: Number, upper: Number, target: Number) -> Verdict
    requires { Comparable lower × (Comparable upper × Comparable target) }
    ensures { result ≡ verdict_of any (decimal_of lower) (decimal_of upper) (decimal_of target) }
{
    if any {
        if upper.at_most(target) {
            return Verdict::Within;
        }
        if lower.at_most(target) {
            return Verdict::Undecided;
        }
        return Verdict::Above;
    }
    Verdict::NoPathway
}

// The running sums before the first record.
pub fn no_runs() -> Runs
    ensures { result ≡ no_runs }
{
    let zero = Number::ZERO;
    let none = SideRun {
        lower: zero,
        upper: zero,
        any: false,
    };
    Runs {
        risk: none,
        hazard: none,
    }
}

// The state before the first record.
pub fn first() -> State
    ensures { result ≡ first_of }
{
    State {
        place: 1,
        before: Earlier::NONE,
        runs: no_runs(),
    }
}

// The state after a record that keeps its rules and its order, or the refusal of its own tests.
fn advance(p: &Plan, t: State, r: Contaminant) -> Result<State, Refused>
    requires { Advancing p.now t r }
    ensures { Stepped p.now t r result }
{
    located(record_refusal(p.scenario, p.medium, t.before, r), t.place)?;
    let w = p.work(r);
    let risk = total(w.above.risk, Direction::Up);
    let hazard = total(w.above.hazard, Direction::Up);
    let mut runs = t.runs;
    shares::add_shares(&mut runs, w, risk, hazard);
    Ok(State {
        place: t.place + 1,
        before: t.before.next(r),
        runs,
    })
}

// The state after one more record, or its refusal, in its own block. After the last place the state stays as it is.
pub fn step(p: &Plan, t: State, r: Contaminant) -> Result<State, Refused>
    requires { Good p.now t }
    ensures { Stepped p.now t r result }
{
    if MOST_CONTAMINANTS < t.place {
        return Ok(t);
    }
    if !contaminant_fits(r) {
        return Err(Refusal::Field.in_block(t.place));
    }
    if r.id <= t.before.id {
        return Err(Refusal::Order.in_block(t.place));
    }
    advance(p, t, r)
}

// The sums of a side as decimals, with the verdict.
fn side_sums(x: SideRun, target: Number) -> SideSums
    requires { SideReady sum_width x × Comparable target }
    ensures { result ≡ side_sums_of x (decimal_of target) }
{
    SideSums {
        lower: decimal::unbiased(x.lower),
        upper: decimal::unbiased(x.upper),
        verdict: judge(x.any, x.lower, x.upper, target),
    }
}

// The sums of both sides, which an accepted call answers.
pub fn reported(p: &Plan, x: Runs) -> Sums
    requires { RunsReady sum_width x }
    ensures { result ≡ reported_of p.now.scenario x }
{
    let targets = p.factors.targets;
    Sums {
        risk: side_sums(x.risk, targets.tr),
        hazard: side_sums(x.hazard, targets.thi),
    }
}

// The sums of both sides after the last record.
pub fn finish(p: &Plan, t: State) -> Sums
    requires { Good p.now t }
    ensures { Ok result ≡ answer_from p.now t [] }
{
    reported(p, t.runs)
}
