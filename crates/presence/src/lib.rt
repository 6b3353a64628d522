// Whether a contaminant has a pathway, by which decimals are zero alone: no term is worked out.
#![tactic(auto)]

ghost use Rattle.std.specs.Prelude.{◌≡◌};
ghost use Rattle.guideline_rules.specs.Pathway.{record_refusal};
ghost use Rattle.presence.specs.Presence.{either_known, inhaled_of, chemical_of, age_known, on_skin, Needed};
ghost use Rattle.inputs.specs.Rules.{Checked};
ghost use Rattle.inputs.specs.Kinds.{medium_number, class_number};

use decimal::Decimal;
use inputs::{Age, Class, Contaminant, Earlier, Inhalation, Medium, Scenario};
use outcome::Refusal;

// Inhalation of a chemical, by whether the factor from soil or water to the air is known: by intake with IRA and a slope factor
// (risk) or a reference dose (hazard), by concentration with A and a unit risk or a reference concentration.
fn inhaled(s: Scenario, r: Contaminant, air: bool) -> bool
    ensures { result ≡ inhaled_of s.inhalation s r air }
{
    match s.inhalation {
        Inhalation::Intake => {
            let toxicity = (r.toxicity.sfi.m != 0) | (r.toxicity.rfdi.m != 0);
            (s.contact.ira.m != 0) & air & toxicity
        }
        Inhalation::Concentration => {
            let toxicity = (r.in_air.u.m != 0) | (r.in_air.q.m != 0);
            air & (s.air_hours.m != 0) & toxicity
        }
    }
}

// A chemical, by what is known of the ways through the mouth or the skin, and of the factor to the air.
fn chemical(s: Scenario, r: Contaminant, swallowed: bool, air: bool) -> bool
    ensures { result ≡ chemical_of s.inhalation s r swallowed air }
{
    let oral = (r.toxicity.sfo.m != 0) | (r.toxicity.rfdo.m != 0);
    (swallowed & oral) | inhaled(s, r, air)
}

// Whether an age adds to G: none of its factors is zero.
fn age_known(x: Age<Decimal>) -> bool
    ensures { result ≡ age_known x }
{
    let exposed = (x.ef.m != 0) & (x.ed.m != 0);
    ((x.sa.m != 0) & exposed) & (x.bw.m != 0)
}

// Whether soil on skin brings a chemical into the body: ABS and the adherence are known, and all four factors of the child or of
// the adult.
fn on_skin(s: Scenario, r: Contaminant) -> bool
    ensures { result ≡ on_skin s r }
{
    if r.abs.m == 0 {
        return false;
    }
    let x = s.ages;
    (x.af.m != 0) & (age_known(x.child) | age_known(x.adult))
}

// Tritium in water: ingestion, inhalation where H is known, by ET or by the shower, and skin.
fn tritium(s: Scenario, r: Contaminant) -> bool
    requires { Needed s }
    ensures { result ≡ either_known s.inhalation s r 2 3 }
{
    let k = s.contact;
    let house = s.house;
    let x = r.toxicity;
    let volume = (house.s.m != 0) & (house.v.m != 0);
    let air = (house.l.m != 0) & (house.w.m != 0);
    let shower = (house.f.m != 0) & (house.n.m != 0) & volume & air;
    let hours = (k.et.m != 0) | shower;
    let oral = (x.sfo.m != 0) & (k.ir.m != 0);
    let inhaled = (x.sfi.m != 0) & (k.ira.m != 0) & (house.m.m != 0) & hours;
    let skin = (x.sfo.m != 0) & (k.sa.m != 0) & (house.k.m != 0) & (k.et.m != 0);
    oral | inhaled | skin
}

// Whether a contaminant has a pathway on either side. In soil: ingestion, inhalation (of a chemical where VF or PEF is
// known), soil on skin of a chemical, and external radiation of a radionuclide; in water: ingestion, of a chemical skin
// and vapour, of tritium inhalation and skin.
fn has_pathway(s: Scenario, medium: Medium, class: Class, r: Contaminant) -> bool
    requires { Needed s }
    ensures { result ≡ either_known s.inhalation s r (medium_number medium) (class_number class) }
{
    let x = r.toxicity;
    let k = s.contact;
    let swallowed = k.ir.m != 0;
    match (class, medium) {
        (Class::Chemical, Medium::Soil) => {
            let air = (r.transfer.vf.m != 0) | (k.pef.m != 0);
            chemical(s, r, swallowed | on_skin(s, r), air)
        }
        (Class::Radionuclide, Medium::Soil) => {
            let oral = (x.sfo.m != 0) & swallowed;
            let breathed = (k.ira.m != 0) & (k.pef.m != 0);
            let inhaled = (x.sfi.m != 0) & breathed;
            let outdoors = (x.sfx.m != 0) & (k.et.m != 0) & (k.rf.m != 0);
            oral | inhaled | outdoors
        }
        (Class::Chemical, Medium::Water) => {
            let skin = (k.sa.m != 0) & (r.transfer.pc.m != 0) & (k.et.m != 0);
            chemical(s, r, swallowed | skin, true)
        }
        (Class::Radionuclide, Medium::Water) => (x.sfo.m != 0) & swallowed,
        (Class::Tritium, Medium::Soil) => false,
        (Class::Tritium, Medium::Water) => tritium(s, r),
    }
}

// What is sent back of a record that keeps its rules and its order, with what stands before it in its list: 12, then 8.
#[tactic(auto, unfolding(guideline_rules::specs::Pathway::record_refusal))]
pub fn record_refusal(
    s: Scenario,
    medium: u32,
    before: Earlier,
    r: Contaminant,
) -> Result<(), Refusal>
    requires { Checked s medium r }
    ensures { result ≡ record_refusal s medium before r }
{
    if inputs::lacks_house(s, medium, r) | before.mixed(r) {
        return Err(Refusal::House);
    }
    let medium = Medium::of(medium);
    let class = Class::of(r.class);
    if !has_pathway(s, medium, class, r) {
        return Err(Refusal::Pathway);
    }
    Ok(())
}
