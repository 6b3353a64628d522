// The listing of a site: its guidelines, sums and verdicts as text.
#![tactic(auto, using(listing_rules::proofs::Lengths::parts, crate::proofs::BlockLines::blocks_most))]

ghost use Rattle.std.specs.Prelude.{◌≡◌, ◌+◌, ◌≤◌, length};
ghost use Rattle.block_rules.specs.Rules.{block_size};
ghost use Rattle.text.specs.Text.{put, HasRoom};
ghost use Rattle.site_rules.specs.Site.{site_answer};
ghost use Rattle.site_rules.specs.Results.{site_left};
ghost use Rattle.listing_rules.specs.Listing.{text_of, text_length, text_left};
ghost use Rattle.listing.specs.Asked.{side_read, block_lines, block_lines_to, block_text, Listing, Answered};

use block_rules::BLOCK_SIZE;
use guideline_rules::{Guidelines, SideGuidelines};
use listing_rules::Side;
use outcome::Refused;
use sum_rules::Sums;
use text::Text;

// The answer of the site call, and the listing's length.
#[derive(Clone, Copy)]
pub struct Listed {
    pub answer: Result<Sums, Refused>,
    pub length: usize,
}

// The guidelines of a side, in the four fields of a result block from `at` on.
pub fn get_side(block: &[u8], at: usize) -> SideGuidelines
    requires { (at ≤ 100) × (at + 32 ≤ length block.now) }
    ensures { result ≡ side_read block.now at }
{
    let [first, second, third, total] = fields::read_all::<4>(block, at);
    SideGuidelines {
        first,
        second,
        third,
        total,
    }
}

// The lines that a result block spells.
#[tactic(auto, unfolding(crate::specs::Asked::block_lines))]
fn put_place(text: &mut Text, block: &[u8])
    requires { (block_size ≤ length block.now) × HasRoom text.old 192 }
    ensures { text.new ≡ put text.old (block_lines block.now) }
{
    let class = words::word(block, 8);
    let id = words::word(block, 12);
    let risk = get_side(block, 16);
    let hazard = get_side(block, 48);
    lines::put_lines(text, class, id, Guidelines { risk, hazard });
}

// The lines of all result blocks, which stand behind the first block.
fn put_places(text: &mut Text, results: &[u8], count: u32)
    requires { Listing results.now text.old count }
    ensures { text.new ≡ put text.old (block_lines_to results.now count) }
{
    for block in results[BLOCK_SIZE..]
        .chunks_exact(BLOCK_SIZE)
        .take(count as usize)
    {
        put_place(text, block);
    }
}

// The listing of an accepted site: its result blocks, then the sums.
fn put_accepted(text: &mut Text, results: &[u8], count: u32, a: Sums)
    requires { Listing results.now text.old count }
    ensures { text.new ≡ put text.old (block_text results.now count a) }
{
    put_places(text, results, count);
    lines::put_sums(text, Side::Risk, a.risk);
    lines::put_sums(text, Side::Hazard, a.hazard);
}

// The listing of an answer: a refusal alone, or an accepted site, whose length gives its count.
fn put_listing(text: &mut Text, site: &[u8], results: &[u8], a: Result<Sums, Refused>)
    requires { Answered site.now results.now a × HasRoom text.old 24576 }
    ensures { text.new ≡ put text.old (text_of site.now a) }
{
    match a {
        Err(refused) => lines::put_refusal(text, u32::from(refused.refusal), refused.block),
        Ok(sums) => {
            let count = (site.len() / BLOCK_SIZE) as u32 - 1;
            put_accepted(text, results, count, sums);
        }
    }
}

// Evaluates the site into `results` as the site call does, and puts its listing, read from there, at the start of `text`.
// A text of fewer than 24,576 bytes is left as it was.
pub fn list_site(site: &[u8], results: &mut [u8], text: &mut [u8]) -> Listed
    ensures { (result.answer ≡ site_answer site.now (length results.old)) × ((result.length ≡ text_length site.now (length results.old) text.old) ×
        ((results.new ≡ site_left site.now results.old) × (text.new ≡ text_left site.now (length results.old) text.old))) }
{
    let answer = site::evaluate(site, results);
    if text.len() < 24576 {
        return Listed { answer, length: 0 };
    }
    let mut listing = Text { out: text, at: 0 };
    put_listing(&mut listing, site, results, answer);
    Listed {
        answer,
        length: listing.at,
    }
}
