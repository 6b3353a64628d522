// The single guideline: from one scenario, one medium and one contaminant to the concentrations that may stay.
#![tactic(auto)]

ghost use Rattle.std.specs.Prelude.{◌≡◌};
ghost use Rattle.rounding.specs.declared.Direction.TheVariants.{Down};
ghost use Rattle.rounding.specs.Number.{InRange};
ghost use Rattle.rounding.specs.Operations.{quotient_of};
ghost use Rattle.terms.specs.Side.{Wide, WideSide};
ghost use Rattle.guideline.specs.Column.{ColumnFor, PrintableColumn, column_decimals, guidelines_from};
ghost use Rattle.guideline_rules.specs.Saturation.{has_saturation, lower_of};
ghost use Rattle.guideline_rules.proofs.Accepted.{Accepted};
ghost use Rattle.guideline_rules.specs.Guideline.{both_sides, guideline_of};

use decimal::Decimal;
use formulas::Sides;
use guideline_rules::{Guidelines, SideGuidelines};
use inputs::{
    CHEMICAL, Class, Contaminant, Earlier, Medium, SOIL, Scenario, Targets, contaminant_fits,
    scenario_refusal,
};
use outcome::{Refusal, Refused, located};
use presence::record_refusal;
use rounding::{Direction, Number};
use terms::pathways::Terms;

// The guidelines of a side as numbers, with the sum of the terms.
#[derive(Clone, Copy)]
pub struct Column {
    pub first: Number,
    pub second: Number,
    pub third: Number,
    pub total: Number,
    pub sum: Number,
}

// Those of both sides.
pub type Columns = Sides<Column>;

// The guideline of a term or of a sum of terms: the target divided by it, down.
fn over(target: Number, term: Number) -> Number
    requires { InRange target × InRange term }
    ensures { result ≡ quotient_of Down target term }
{
    target.div(term, Direction::Down)
}

// The eight guidelines, written out in one function that is called from one place: so the compiler keeps the
// numbers in registers (docs/DECISIONS.md, speed).
pub fn columns_of(targets: Targets<Number>, t: Terms) -> Columns
    requires { (Wide targets.tr × WideSide t.risk) × (Wide targets.thi × WideSide t.hazard) }
    ensures { ColumnFor targets.tr t.risk result.risk × ColumnFor targets.thi t.hazard result.hazard }
{
    let Targets { tr, thi } = targets;
    let a = t.risk;
    let b = t.hazard;
    let risk = terms::pathways::total(a, Direction::Up);
    let hazard = terms::pathways::total(b, Direction::Up);
    Columns {
        risk: Column {
            first: over(tr, a.first),
            second: over(tr, a.second),
            third: over(tr, a.third),
            total: over(tr, risk),
            sum: risk,
        },
        hazard: Column {
            first: over(thi, b.first),
            second: over(thi, b.second),
            third: over(thi, b.third),
            total: over(thi, hazard),
            sum: hazard,
        },
    }
}

// The guidelines of a side as decimals.
fn side_decimals(c: Column) -> SideGuidelines
    requires { PrintableColumn c }
    ensures { result ≡ column_decimals c }
{
    SideGuidelines {
        first: decimal::unbiased(c.first),
        second: decimal::unbiased(c.second),
        third: decimal::unbiased(c.third),
        total: decimal::unbiased(c.total),
    }
}

// Whether the saturation counts: of a chemical in soil, where it is not zero.
fn has_saturation(medium: u32, r: Contaminant) -> bool
    ensures { result ≡ has_saturation medium r }
{
    r.saturation.m != 0 && medium == SOIL && r.class == CHEMICAL
}

// The lower of two working decimals.
fn lower(a: Decimal, b: Decimal) -> Decimal
    ensures { result ≡ lower_of a b }
{
    if a.at_most(b) {
        return a;
    }
    b
}

// The guidelines of both sides as decimals, inhalation no higher than the saturation of the contaminant.
pub fn decimals(c: Columns, medium: u32, r: Contaminant) -> Guidelines
    requires { PrintableColumn c.risk × PrintableColumn c.hazard }
    ensures { result ≡ guidelines_from c medium r }
{
    let mut risk = side_decimals(c.risk);
    let mut hazard = side_decimals(c.hazard);
    if has_saturation(medium, r) {
        let most = r.saturation.working();
        risk.second = lower(risk.second, most);
        hazard.second = lower(hazard.second, most);
    }
    Guidelines { risk, hazard }
}

// The guidelines for inputs that keep their rules: no exponent on the way leaves -999 to 999 (`guideline_in_range`).
fn worked_out(s: Scenario, medium: u32, r: Contaminant) -> Guidelines
    requires { Accepted s medium r }
    ensures { result ≡ both_sides s medium r }
{
    let soil_or_water = Medium::of(medium);
    let class = Class::of(r.class);
    let f = factors::numbers::scenario_numbers(s);
    let p = factors::prepared::prepare(&f, soil_or_water, Direction::Up);
    let t = factors::numbers::contaminant_numbers(r, s.inhalation);
    let side = terms::pathways::terms_of(
        &f,
        &p,
        &t,
        soil_or_water,
        s.inhalation,
        class,
        Direction::Up,
    );
    let columns = columns_of(f.targets, side);
    decimals(columns, medium, r)
}

// The eight guidelines of a contaminant under a scenario in a medium (1 soil, 2 water), or a refusal: of the scenario
// in block 0; of the contaminant in block 1, first 4, then those of its own tests.
pub fn guideline(s: Scenario, medium: u32, r: Contaminant) -> Result<Guidelines, Refused>
    ensures { result ≡ guideline_of s medium r }
{
    located(scenario_refusal(s, medium), 0)?;
    if !contaminant_fits(r) {
        return Err(Refusal::Field.in_block(1));
    }
    located(record_refusal(s, medium, Earlier::NONE, r), 1)?;
    Ok(worked_out(s, medium, r))
}
