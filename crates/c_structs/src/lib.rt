// The structs and words of the C header: a header or a contaminant out of its bytes, the eight guidelines into theirs, and answers as a word.
#![tactic(auto)]

ghost use Rattle.std.specs.Prelude.{◌≡◌, ◌≤◌, ◌<◌, length};
ghost use Rattle.fields.specs.Fields.{field_bytes};
ghost use Rattle.words.specs.Bytes.{over};
ghost use Rattle.block_rules.specs.Layouts.{guideline_decimals};
ghost use Rattle.gv_rules.specs.Exports.{word_of, packed, header_from, contaminant_from};

use block_rules::{Header, STRUCT_SIZE};
use formulas::Sides;
use guideline_rules::Guidelines;
use inputs::{Contaminant, Inhalation, Scenario};
use outcome::Refused;
use sum_rules::Sums;

// The header of a kind in a struct gv_header. Another kind, or a struct of another form, stands for one that keeps no rule.
pub fn header_from(kind: u32, header: &[u8]) -> Header
    ensures { result ≡ header_from kind header.now }
{
    let none = Header {
        medium: 0,
        count: 0,
        scenario: Scenario::BLANK,
    };
    if !inputs::is_header_kind(kind) {
        return none;
    }
    if header.len() != STRUCT_SIZE {
        return none;
    }
    if !blocks::header_unused(header, 0) {
        return none;
    }
    blocks::get_header(header, 0, Inhalation::of(kind))
}

// The contaminant in a struct gv_contaminant. A struct of another form stands for one that keeps no rule.
pub fn contaminant_from(contaminant: &[u8]) -> Contaminant
    ensures { (result ≡ contaminant_from contaminant.now) × (result.id < 4294967296) }
{
    if contaminant.len() != STRUCT_SIZE {
        return Contaminant::NONE;
    }
    if !blocks::contaminant_unused(contaminant, 0) {
        return Contaminant::NONE;
    }
    blocks::get_contaminant(contaminant, 0)
}

// Writes the eight guidelines: risk, then hazard.
pub fn put_guidelines(out: &mut [u8], g: Guidelines)
    requires { 64 ≤ length out.old }
    ensures { out.new ≡ over (field_bytes (guideline_decimals g.risk g.hazard)) out.old }
{
    let Sides { risk: r, hazard: h } = g;
    fields::put_all(out, 0, [r.first, r.second, r.third, r.total]);
    fields::put_all(out, 32, [h.first, h.second, h.third, h.total]);
}

// The word of four numbers: a byte each where they are below 256.
pub fn word_of(number: u32, block: u32, risk: u32, hazard: u32) -> u64
    ensures { result ≡ word_of number block risk hazard }
{
    number as u64 + 256 * (block as u64) + 65536 * (risk as u64) + 16777216 * (hazard as u64)
}

// The word of an answer of the site call.
#[tactic(auto, unfolding(gv_rules::specs::Exports::packed))]
pub fn pack(a: Result<Sums, Refused>) -> u64
    ensures { result ≡ packed a }
{
    match a {
        Ok(both) => word_of(
            0,
            0,
            sums::verdict_number(both.risk.verdict),
            sums::verdict_number(both.hazard.verdict),
        ),
        Err(refused) => word_of(u32::from(refused.refusal), refused.block, 0, 0),
    }
}
