// The writers of a header and of a contaminant: refused, or their block is put into the first 512 bytes of what is lent.
#![tactic(auto)]

ghost use Rattle.std.specs.Prelude.{◌≡◌, length};
ghost use Rattle.block_rules.specs.Answers.{contaminant_fit, header_refusal, header_answer, header_left, contaminant_refusal, contaminant_answer, contaminant_left};
ghost use Rattle.gv_rules.specs.Exports.{built_in_sent, built_in_put};

use block_rules::{BLOCK_SIZE, Header};
use inputs::{Contaminant, Scenario};
use outcome::{Refusal, Refused, located};

// Whether a place keeps its rule, and a contaminant's class, id and decimals.
fn contaminant_fit(place: u32, r: Contaminant) -> bool
    ensures { result ≡ contaminant_fit place r }
{
    blocks::in_file(place) & inputs::contaminant_fits(r)
}

// What the writer of a header, of kind 1 or 6, sends back where so many bytes are lent: 10, 4 for the count, the tests of the scenario.
#[tactic(auto, unfolding(block_rules::specs::Answers::header_refusal, inputs::specs::Rules::scenario_refusal))]
fn header_refusal(room: usize, h: Header) -> Result<(), Refusal>
    ensures { result ≡ header_refusal room h }
{
    if room < BLOCK_SIZE {
        return Err(Refusal::Room);
    }
    if !blocks::in_file(h.count) {
        return Err(Refusal::Field);
    }
    inputs::scenario_refusal(h.scenario, h.medium)
}

// What the writer of kind 2 sends back where so many bytes are lent: 10, 4.
#[tactic(auto, unfolding(block_rules::specs::Answers::contaminant_refusal))]
fn contaminant_refusal(room: usize, place: u32, r: Contaminant) -> Result<(), Refusal>
    ensures { result ≡ contaminant_refusal room place r }
{
    if room < BLOCK_SIZE {
        return Err(Refusal::Room);
    }
    if !contaminant_fit(place, r) {
        return Err(Refusal::Field);
    }
    Ok(())
}

// Writes a header's block, or refuses it and writes nothing. The block of a refusal is always 0.
pub fn write_header(out: &mut [u8], h: Header) -> Result<(), Refused>
    ensures { (result ≡ header_answer (length out.old) h) × (out.new ≡ header_left out.old h) }
{
    located(header_refusal(out.len(), h), 0)?;
    block_output::put_header(out, h);
    Ok(())
}

// Writes a contaminant's block, or refuses it and writes nothing. The block of a refusal is always 0.
pub fn write_contaminant(out: &mut [u8], place: u32, r: Contaminant) -> Result<(), Refused>
    ensures { (result ≡ contaminant_answer (length out.old) place r) × (out.new ≡ contaminant_left out.old place r) }
{
    located(contaminant_refusal(out.len(), place, r), 0)?;
    block_output::put_contaminant(out, place, r);
    Ok(())
}

// Writes the header block of a built-in scenario.
pub fn write_built_in(out: &mut [u8], number: u32, medium: u32, count: u32) -> Result<(), Refused>
    ensures { (result ≡ built_in_sent (length out.old) number medium count) × (out.new ≡ built_in_put out.old number medium count) }
{
    let scenario = Scenario::built_in(number)?;
    let h = Header {
        medium,
        count,
        scenario,
    };
    write_header(out, h)
}
