// The functions of the C library. Each takes numbers and lent bytes, and calls the proved function behind it. The crate gv_c
// exports them to C.
#![tactic(auto)]

ghost use Rattle.std.specs.Prelude.{◌≡◌, length};
ghost use Rattle.outcome.specs.Outcome.{number_of};
ghost use Rattle.block_rules.specs.Answers.{header_answer, header_left, contaminant_answer, contaminant_left};
ghost use Rattle.site_rules.specs.Site.{site_answer};
ghost use Rattle.site_rules.specs.Results.{site_left};
ghost use Rattle.listing_rules.specs.Listing.{text_length, text_left};
ghost use Rattle.gv_rules.specs.Exports.{packed, header_from, contaminant_from, with_room, guideline_sent, guideline_word, guideline_put, built_in_sent, built_in_put};

use guideline_rules::Guidelines;
use outcome::{Refusal, Refused};

// Evaluates a site: see include/gv.h.
pub fn gv_site(site: &[u8], out: &mut [u8]) -> u64
    ensures { (result ≡ packed (site_answer site.now (length out.old))) × (out.new ≡ site_left site.now out.old) }
{
    c_structs::pack(site::evaluate(site, out))
}

// Evaluates a site and lists it: see include/gv.h.
pub fn gv_list(site: &[u8], out: &mut [u8], text: &mut [u8]) -> u64
    ensures { (result ≡ text_length site.now (length out.old) text.old) × ((out.new ≡ site_left site.now out.old) × (text.new ≡ text_left site.now (length out.old) text.old)) }
{
    let listed = listing::list_site(site, out, text);
    listed.length as u64
}

// The eight guidelines of an accepted answer, in the first 64 bytes lent; last 10 where fewer are lent.
fn put_answer(own: Result<Guidelines, Refused>, out: &mut [u8]) -> Result<Guidelines, Refused>
    ensures { (result ≡ with_room (length out.old) own) × (out.new ≡ guideline_put result out.old) }
{
    let g = own?;
    if out.len() < 64 {
        return Err(Refusal::Room.in_block(0));
    }
    c_structs::put_guidelines(out, g);
    Ok(g)
}

// The single guideline of a struct gv_header, whose count is not looked at, for headers of a kind, and a struct gv_contaminant: see
// include/gv.h.
pub fn gv_guideline(kind: u32, header: &[u8], contaminant: &[u8], out: &mut [u8]) -> u64
    ensures { (result ≡ guideline_word (guideline_sent kind header.now contaminant.now (length out.old))) × (out.new ≡ guideline_put (guideline_sent kind header.now contaminant.now (length out.old)) out.old) }
{
    let h = c_structs::header_from(kind, header);
    let r = c_structs::contaminant_from(contaminant);
    let a = put_answer(one_contaminant::single(h, r), out);
    c_structs::word_of(outcome::number(a), outcome::block(a), 0, 0)
}

// Writes the header block of a kind, 1 or 6, from a struct gv_header.
pub fn gv_write_header(out: &mut [u8], kind: u32, header: &[u8]) -> u32
    ensures { (result ≡ number_of (header_answer (length out.old) (header_from kind header.now))) × (out.new ≡ header_left out.old (header_from kind header.now)) }
{
    outcome::number(writers::write_header(out, c_structs::header_from(kind, header)))
}

// Writes a contaminant block from a struct gv_contaminant.
pub fn gv_write_contaminant(out: &mut [u8], place: u32, contaminant: &[u8]) -> u32
    ensures { (result ≡ number_of (contaminant_answer (length out.old) place (contaminant_from contaminant.now))) × (out.new ≡ contaminant_left out.old place (contaminant_from contaminant.now)) }
{
    let r = c_structs::contaminant_from(contaminant);
    outcome::number(writers::write_contaminant(out, place, r))
}

// Writes the header block of a built-in scenario.
pub fn gv_write_built_in(out: &mut [u8], number: u32, medium: u32, count: u32) -> u32
    ensures { (result ≡ number_of (built_in_sent (length out.old) number medium count)) × (out.new ≡ built_in_put out.old number medium count) }
{
    outcome::number(writers::write_built_in(out, number, medium, count))
}
