// The inputs as numbers of nine digits with biased exponents, on which the terms are worked out: in the groups of `inputs`.
ghost use Rattle.std.specs.Prelude.{◌≡◌, true, map};
ghost use Rattle.factors.specs.Widths.{input_width};
ghost use Rattle.decimal.specs.Decimal.{working_of};
ghost use Rattle.inputs.specs.Inputs.{scenario_decimals, air_decimals, toxicity_in_air, formula_decimals};
ghost use Rattle.inputs.specs.Valid.{valid_of, all_valid};
ghost use Rattle.factors.specs.Stands.{Stands, StandAll, FactorsFor, NumbersFor};

use decimal::Decimal;
use inputs::{
    Ages, AirToxicity, Contact, Contaminant, Exposure, House, Inhalation, Scenario, Targets,
    Toxicity, Transfer,
};
use rounding::Number;

// The factors of a scenario.
#[derive(Clone, Copy)]
pub struct Factors {
    pub exposure: Exposure<Number>,
    pub contact: Contact<Number>,
    pub targets: Targets<Number>,
    pub house: House<Number>,
    pub air_hours: Number,
    pub ages: Ages<Number>,
}

// The decimals of a contaminant that a formula names: all but its concentration and its saturation; its toxicity in the air is
// zero where inhalation is worked out by intake.
#[derive(Clone, Copy)]
pub struct ContaminantNumbers {
    pub toxicity: Toxicity<Number>,
    pub transfer: Transfer<Number>,
    pub in_air: AirToxicity<Number>,
    pub abs: Number,
}

// The number of a decimal that keeps its rule.
pub fn number_of(d: Decimal) -> Number
    requires { valid_of d ≡ true }
    ensures { Stands input_width result (working_of d) }
{
    if d.m == 0 {
        return Number::ZERO;
    }
    Number::from(d).working()
}

// The number of each decimal.
fn numbers_of<const N: usize>(ds: [Decimal; N]) -> [Number; N]
    requires { all_valid ds ≡ true }
    ensures { StandAll result (map working_of ds.entry) }
{
    ds.map(number_of)
}

pub fn scenario_numbers(s: Scenario) -> Factors
    requires { all_valid (scenario_decimals s) ≡ true }
    ensures { FactorsFor s result }
{
    Factors {
        exposure: numbers_of(s.exposure.into()).into(),
        contact: numbers_of(s.contact.into()).into(),
        targets: numbers_of(s.targets.into()).into(),
        house: numbers_of(s.house.into()).into(),
        air_hours: number_of(s.air_hours),
        ages: numbers_of(s.ages.into()).into(),
    }
}

// The toxicity in the air, where it counts: by concentration.
fn air_numbers(x: AirToxicity<Decimal>, inhalation: Inhalation) -> AirToxicity<Number>
    requires { all_valid (air_decimals (toxicity_in_air inhalation x)) ≡ true }
    ensures { StandAll (air_decimals result) (map working_of (air_decimals (toxicity_in_air inhalation x))) }
{
    match inhalation {
        Inhalation::Intake => AirToxicity {
            u: Number::ZERO,
            q: Number::ZERO,
        },
        Inhalation::Concentration => numbers_of(x.into()).into(),
    }
}

pub fn contaminant_numbers(r: Contaminant, inhalation: Inhalation) -> ContaminantNumbers
    requires { all_valid (formula_decimals inhalation r) ≡ true }
    ensures { NumbersFor inhalation r result }
{
    ContaminantNumbers {
        toxicity: numbers_of(r.toxicity.into()).into(),
        transfer: numbers_of(r.transfer.into()).into(),
        in_air: air_numbers(r.in_air, inhalation),
        abs: number_of(r.abs),
    }
}
