// The site call: the blocks of a site are checked one by one; then each has its result block in the output.
#![tactic(auto)]

ghost use Rattle.std.specs.Prelude.{◌≡◌, length};
ghost use Rattle.site_rules.specs.Blocks.{length_ok};
ghost use Rattle.site_rules.specs.Site.{site_answer};
ghost use Rattle.site_rules.specs.Results.{site_left};
ghost use Rattle.inputs.specs.Earlier.{none_before};
ghost use Rattle.site_rules.proofs.Walk.{check_blocks};
ghost use Rattle.site.specs.Check.{Checking};
ghost use Rattle.site_rules.specs.Passed.{Opened};

use block_rules::{BLOCK_SIZE, Header};
use inputs::{Earlier, Scenario};
use outcome::{Refusal, Refused, located};
use sum_rules::Sums;

// The bytes of a site with one contaminant, and with 120.
const LEAST: usize = 2 * BLOCK_SIZE;

const MOST: usize = 121 * BLOCK_SIZE;

// Whether a site may have so many bytes.
fn length_ok(n: usize) -> bool
    ensures { result ≡ length_ok n }
{
    let enough = (LEAST <= n) & (n <= MOST);
    enough & (n % BLOCK_SIZE == 0)
}

// The first refusal of the contaminant blocks, in their order. The tests of a record look at its fields only, so no term
// is worked out before the whole site is checked.
fn check_blocks(site: &[u8], s: Scenario, medium: u32, count: u32) -> Result<(), Refused>
    requires { Checking s medium site.now count }
    ensures { result ≡ check_blocks s medium site.now count 1 none_before }
{
    let mut before = Earlier::NONE;
    for k in 0..count {
        let place = k + 1;
        let at = BLOCK_SIZE * (place as usize);
        let r = located(blocks::read_contaminant(site, at, place, before.id), place)?;
        located(presence::record_refusal(s, medium, before, r), place)?;
        before = before.next(r);
    }
    Ok(())
}

// The site whose header was found.
fn evaluate_blocks(site: &[u8], h: Header, out: &mut [u8]) -> Result<Sums, Refused>
    requires { Opened site.now h }
    ensures { (result ≡ site_answer site.now (length out.old)) × (out.new ≡ site_left site.now out.old) }
{
    let s = h.scenario;
    let count = h.count;
    check_blocks(site, s, h.medium, count)?;
    if out.len() < site.len() {
        return Err(Refusal::Room.in_block(0));
    }
    let p = shares::planned(s, h.medium);
    Ok(result_blocks::put_results(site, &p, count, out))
}

// The whole site: its sums and verdicts, and its result blocks in the output where it is accepted.
pub fn evaluate(site: &[u8], out: &mut [u8]) -> Result<Sums, Refused>
    ensures { (result ≡ site_answer site.now (length out.old)) × (out.new ≡ site_left site.now out.old) }
{
    let n = site.len();
    if !length_ok(n) {
        return Err(Refusal::Length.in_block(0));
    }
    let blocks = (n / BLOCK_SIZE) as u32;
    let h = located(blocks::read_header(site, blocks), 0)?;
    evaluate_blocks(site, h, out)
}
