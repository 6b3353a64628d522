// A land-use scenario and a contaminant record, as a file or a caller gives them.
#![tactic(auto)]

mod earlier;
mod groups;
mod kind;

ghost use Rattle.std.specs.Prelude.{◌≡◌, true, [], ◌∷◌};
ghost use Rattle.inputs.specs.BuiltIn.{built_in_of};
ghost use Rattle.inputs.specs.Inputs.{scenario_decimals, contaminant_decimals};
ghost use Rattle.inputs.specs.Rules.{one_to, scenario_fits, contaminant_fits, lacks_factor, lacks_house, scenario_refusal};
ghost use Rattle.inputs.specs.Valid.{valid_of, all_valid};

use decimal::Decimal;
pub use earlier::Earlier;
pub use groups::{Age, Ages, AirToxicity, Contact, Exposure, House, Targets, Toxicity, Transfer};
pub use kind::{CHEMICAL, Class, Inhalation, Medium, SOIL, is_header_kind};
use kind::{MOST_CLASS, MOST_MEDIUM, TRITIUM};
use outcome::{Refusal, Refused};
use rounding::BIAS;

// A list or a site has 1 to 120 contaminants.
pub const MOST_CONTAMINANTS: u32 = 120;

// No value of a house.
const NO_HOUSE: House<Decimal> = House {
    m: Decimal::ZERO,
    f: Decimal::ZERO,
    n: Decimal::ZERO,
    s: Decimal::ZERO,
    v: Decimal::ZERO,
    l: Decimal::ZERO,
    w: Decimal::ZERO,
    k: Decimal::ZERO,
};

// No skin of a child or an adult.
const NO_AGE: Age<Decimal> = Age {
    sa: Decimal::ZERO,
    ef: Decimal::ZERO,
    ed: Decimal::ZERO,
    bw: Decimal::ZERO,
};

const NO_AGES: Ages<Decimal> = Ages {
    child: NO_AGE,
    adult: NO_AGE,
    af: Decimal::ZERO,
};

// The exponents -20 and 20 of a file or record.
const LEAST: u64 = BIAS - 20;

const GREATEST: u64 = BIAS + 20;

// A land-use scenario; air_hours is A, the hours of a day in the air.
#[derive(Clone, Copy)]
pub struct Scenario {
    pub exposure: Exposure<Decimal>,
    pub contact: Contact<Decimal>,
    pub targets: Targets<Decimal>,
    pub house: House<Decimal>,
    pub air_hours: Decimal,
    pub ages: Ages<Decimal>,
    pub inhalation: Inhalation,
}

// A contaminant: its class (1 chemical, 2 radionuclide, 3 tritium), its id, its measured concentration C, the saturation of
// soil with it, mg/kg, its toxicity by concentration in the air, and ABS, the fraction that skin absorbs of what soil holds
// of it.
#[derive(Clone, Copy)]
pub struct Contaminant {
    pub class: u32,
    pub id: u32,
    pub toxicity: Toxicity<Decimal>,
    pub transfer: Transfer<Decimal>,
    pub c: Decimal,
    pub saturation: Decimal,
    pub in_air: AirToxicity<Decimal>,
    pub abs: Decimal,
}

impl Scenario {
    // Office worker (source 002, Table 5.1.1).
    pub const OFFICE_WORKER: Scenario = Scenario {
        exposure: Exposure {
            ef: Decimal { m: 250, e: 0 },
            ed: Decimal { m: 25, e: 0 },
            bw: Decimal { m: 70, e: 0 },
            at: Decimal { m: 70, e: 0 },
        },
        contact: Contact {
            ir: Decimal { m: 50, e: 0 },
            ira: Decimal { m: 20, e: 0 },
            pef: Decimal { m: 428, e: 7 },
            et: Decimal::ZERO,
            rf: Decimal::ZERO,
            sa: Decimal::ZERO,
        },
        targets: Targets {
            tr: Decimal { m: 1, e: -6 },
            thi: Decimal { m: 1, e: 0 },
        },
        house: NO_HOUSE,
        air_hours: Decimal::ZERO,
        ages: NO_AGES,
        inhalation: Inhalation::Intake,
    };

    // Archeologist (source 004).
    pub const ARCHEOLOGIST: Scenario = Scenario {
        exposure: Exposure {
            ef: Decimal { m: 250, e: 0 },
            ed: Decimal { m: 1, e: 0 },
            bw: Decimal { m: 70, e: 0 },
            at: Decimal { m: 70, e: 0 },
        },
        contact: Contact {
            ir: Decimal { m: 200, e: 0 },
            ira: Decimal { m: 15, e: 0 },
            pef: Decimal { m: 5, e: 6 },
            et: Decimal { m: 8, e: 0 },
            rf: Decimal { m: 1, e: 0 },
            sa: Decimal::ZERO,
        },
        targets: Targets {
            tr: Decimal { m: 1, e: -6 },
            thi: Decimal { m: 1, e: 0 },
        },
        house: NO_HOUSE,
        air_hours: Decimal::ZERO,
        ages: NO_AGES,
        inhalation: Inhalation::Intake,
    };

    // Bird watcher (source 004).
    pub const BIRD_WATCHER: Scenario = Scenario {
        exposure: Exposure {
            ef: Decimal { m: 50, e: 0 },
            ed: Decimal { m: 5, e: 0 },
            bw: Decimal { m: 70, e: 0 },
            at: Decimal { m: 70, e: 0 },
        },
        contact: Contact {
            ir: Decimal { m: 25, e: 0 },
            ira: Decimal { m: 5, e: 0 },
            pef: Decimal { m: 2, e: 7 },
            et: Decimal { m: 4, e: 0 },
            rf: Decimal { m: 8, e: -1 },
            sa: Decimal::ZERO,
        },
        targets: Targets {
            tr: Decimal { m: 1, e: -6 },
            thi: Decimal { m: 1, e: 0 },
        },
        house: NO_HOUSE,
        air_hours: Decimal::ZERO,
        ages: NO_AGES,
        inhalation: Inhalation::Intake,
    };

    // The scenario with every decimal zero, inhalation by intake.
    pub const BLANK: Scenario = Scenario {
        exposure: Exposure {
            ef: Decimal::ZERO,
            ed: Decimal::ZERO,
            bw: Decimal::ZERO,
            at: Decimal::ZERO,
        },
        contact: Contact {
            ir: Decimal::ZERO,
            ira: Decimal::ZERO,
            pef: Decimal::ZERO,
            et: Decimal::ZERO,
            rf: Decimal::ZERO,
            sa: Decimal::ZERO,
        },
        targets: Targets {
            tr: Decimal::ZERO,
            thi: Decimal::ZERO,
        },
        house: NO_HOUSE,
        air_hours: Decimal::ZERO,
        ages: NO_AGES,
        inhalation: Inhalation::Intake,
    };

    // The built-in scenario of a number from 1 to 3; refusal 11 in block 0 for any other number.
    #[tactic(auto, unfolding(crate::specs::BuiltIn::built_in_of))]
    pub fn built_in(number: u32) -> Result<Scenario, Refused>
        ensures { result ≡ built_in_of number }
    {
        match number {
            1 => Ok(Scenario::OFFICE_WORKER),
            2 => Ok(Scenario::ARCHEOLOGIST),
            3 => Ok(Scenario::BIRD_WATCHER),
            _ => Err(Refusal::Scenario.in_block(0)),
        }
    }
}

impl Contaminant {
    // Class 0 and id 0, which keep no rule, and every decimal zero.
    pub const NONE: Contaminant = Contaminant {
        class: 0,
        id: 0,
        toxicity: Toxicity {
            sfo: Decimal::ZERO,
            sfi: Decimal::ZERO,
            sfx: Decimal::ZERO,
            rfdo: Decimal::ZERO,
            rfdi: Decimal::ZERO,
        },
        transfer: Transfer {
            vf: Decimal::ZERO,
            pc: Decimal::ZERO,
        },
        c: Decimal::ZERO,
        saturation: Decimal::ZERO,
        in_air: AirToxicity {
            u: Decimal::ZERO,
            q: Decimal::ZERO,
        },
        abs: Decimal::ZERO,
    };
}

// Whether a decimal keeps the rule of a file or record.
pub fn valid(d: Decimal) -> bool
    ensures { result ≡ valid_of d }
{
    let m = d.m;
    let e = d.e;
    let x = decimal::biased_exponent(e);
    let low = LEAST <= x;
    let high = x <= GREATEST;
    let zero = (m == 0) & (x != BIAS);
    (m <= 999_999_999) & low & high & !zero
}

// Whether it is (0, 0), which keeps the rule.
fn is_zero(d: Decimal) -> bool
    ensures { result ≡ true → valid_of d ≡ true }
{
    (d.m == 0) & (d.e == 0)
}

// The same of the decimals that most records leave at zero, which take one test then.
fn zero_or_valid(a: Decimal, b: Decimal, c: Decimal, d: Decimal) -> bool
    ensures { result ≡ all_valid (a ∷ b ∷ c ∷ d ∷ []) }
{
    if is_zero(a) & is_zero(b) & is_zero(c) & is_zero(d) {
        return true;
    }
    valid(a) & valid(b) & valid(c) & valid(d)
}

// Whether each decimal keeps its rule. No branch depends on them.
fn all_valid<const N: usize>(ds: [Decimal; N]) -> bool
    ensures { result ≡ all_valid ds.entry }
{
    let mut ok = true;
    for d in ds {
        ok &= valid(d);
    }
    ok
}

// Whether the decimals of a scenario keep their rule.
pub fn valid_scenario(s: Scenario) -> bool
    ensures { result ≡ all_valid (scenario_decimals s) }
{
    let exposure = all_valid(s.exposure.into());
    let contact = all_valid(s.contact.into());
    let targets = all_valid(s.targets.into());
    let house = all_valid(s.house.into());
    let air_hours = valid(s.air_hours);
    let ages = all_valid(s.ages.into());
    exposure & contact & targets & house & air_hours & ages
}

// Whether the decimals of a contaminant keep their rule.
pub fn valid_contaminant(r: Contaminant) -> bool
    ensures { result ≡ all_valid (contaminant_decimals r) }
{
    let toxicity = all_valid(r.toxicity.into());
    let transfer = all_valid(r.transfer.into());
    let c = valid(r.c);
    let later = zero_or_valid(r.saturation, r.in_air.u, r.in_air.q, r.abs);
    toxicity & transfer & c & later
}

// Whether a number is from 1 to so many: a medium, or a class.
fn one_to(most: u32, n: u32) -> bool
    ensures { result ≡ one_to most n }
{
    (1 <= n) & (n <= most)
}

// Whether the medium and the scenario's decimals keep their rules.
pub fn scenario_fits(s: Scenario, medium: u32) -> bool
    ensures { result ≡ scenario_fits s medium }
{
    one_to(MOST_MEDIUM, medium) & valid_scenario(s)
}

// Whether the class, the id and the contaminant's decimals keep their rules.
pub fn contaminant_fits(r: Contaminant) -> bool
    ensures { result ≡ contaminant_fits r }
{
    one_to(MOST_CLASS, r.class) & (r.id != 0) & valid_contaminant(r)
}

// Whether EF, ED, BW, AT, TR or THI is zero.
pub fn lacks_factor(s: Scenario) -> bool
    ensures { result ≡ lacks_factor s }
{
    let ef = s.exposure.ef.m != 0;
    let ed = s.exposure.ed.m != 0;
    let bw = s.exposure.bw.m != 0;
    let at = s.exposure.at.m != 0;
    let tr = s.targets.tr.m != 0;
    let thi = s.targets.thi.m != 0;
    !(ef & ed & bw & at & tr & thi)
}

// What is sent back of a scenario in a medium: 4, then 6.
#[tactic(auto, unfolding(crate::specs::Rules::scenario_refusal))]
pub fn scenario_refusal(s: Scenario, medium: u32) -> Result<(), Refusal>
    ensures { result ≡ scenario_refusal s medium }
{
    if !scenario_fits(s, medium) {
        return Err(Refusal::Field);
    }
    if lacks_factor(s) {
        return Err(Refusal::Factor);
    }
    Ok(())
}

// Whether a record is tritium where the house has no L or no W, or in soil.
pub fn lacks_house(s: Scenario, medium: u32, r: Contaminant) -> bool
    ensures { result ≡ lacks_house s medium r }
{
    if r.class != TRITIUM {
        return false;
    }
    let house = s.house;
    (house.l.m == 0) | (house.w.m == 0) | (medium == SOIL)
}
