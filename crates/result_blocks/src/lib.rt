// The result blocks of a site in the output: each contaminant worked out and written at its place, then the summary.
#![tactic(auto)]

ghost use Rattle.std.specs.Prelude.{◌≡◌, ◌++◌, ◌+◌, ◌*◌, ◌≤◌, length, take, Ok};
ghost use Rattle.block_rules.specs.Rules.{block_size};
ghost use Rattle.words.specs.Bytes.{over};
ghost use Rattle.site_rules.specs.Blocks.{record_at, records_from, all_sums};
ghost use Rattle.site_rules.specs.Results.{result_at, results_to};
ghost use Rattle.result_blocks.specs.Writing.{Writing, WritingOne, AllAdded, blocks_of};
ghost use Rattle.sums.specs.State.{NextRuns};

use block_rules::BLOCK_SIZE;
use shares::{Plan, Runs};
use sum_rules::Sums;

// Works out the contaminant of one block, writes its result block and adds its shares to the sums.
fn put_block(site: &[u8], p: &Plan, place: u32, runs: &mut Runs, out: &mut [u8])
    requires { WritingOne p.now site.now place runs.old × (block_size ≤ length out.old) }
    ensures { NextRuns p.now (record_at site.now place) place runs.old runs.new × (out.new ≡ over (result_at p.now.scenario p.now.medium site.now place) out.old) }
{
    let at = BLOCK_SIZE * (place as usize);
    let from = at + 4;
    let to = at + 508;
    let r = blocks::get_contaminant(&site[from..to], 4);
    let w = p.work(r);
    let c = guideline::columns_of(p.factors.targets, w.above);
    let g = guideline::decimals(c, p.medium, r);
    block_output::put_result(out, place, r.class, r.id, g);
    shares::add_shares(runs, w, c.risk.sum, c.hazard.sum);
}

// The result blocks of all contaminants, each in its own part of the output, and their sums.
fn put_blocks(site: &[u8], p: &Plan, count: u32, out: &mut [u8]) -> Runs
    requires { Writing p.now site.now count × (block_size * count + block_size ≤ length out.old) }
    ensures { AllAdded p.now site.now count result × (out.new ≡ over (take block_size out.old ++ results_to p.now.scenario p.now.medium site.now count) out.old) }
{
    let mut runs = sums::no_runs();
    for k in 0..count {
        let place = k + 1;
        let a = BLOCK_SIZE * (place as usize);
        let b = a + BLOCK_SIZE;
        put_block(site, p, place, &mut runs, &mut out[a..b]);
    }
    runs
}

// The result blocks and, at place 0, the summary.
pub fn put_results(site: &[u8], p: &Plan, count: u32, out: &mut [u8]) -> Sums
    requires { Writing p.now site.now count × (block_size * count + block_size ≤ length out.old) }
    ensures { (Ok result ≡ all_sums p.now.scenario p.now.medium (records_from site.now count 1)) × (out.new ≡ over (blocks_of p.now.scenario p.now.medium site.now count result) out.old) }
{
    let runs = put_blocks(site, p, count, out);
    let a = sums::reported(p, runs);
    block_output::put_summary(&mut out[0..BLOCK_SIZE], a);
    a
}
