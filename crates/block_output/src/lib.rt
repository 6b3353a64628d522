// Puts one block into the first 512 bytes of what is lent: header, contaminant, result, summary.
#![tactic(auto, using(words::proofs::ReadBack::zeros_placed))]

ghost use Rattle.std.specs.Prelude.{◌≡◌, ◌≤◌, ◌*◌, ◌-◌, ◌++◌, true, length};
ghost use Rattle.block_rules.specs.Rules.{block_size};
ghost use Rattle.words.specs.Words.{zeros};
ghost use Rattle.words.specs.Bytes.{placed, le4, over};
ghost use Rattle.block_rules.specs.Layouts.{last_word, header_block, contaminant_block, result_block, summary_block};

use block_rules::Header;
use formulas::Sides;
use guideline_rules::Guidelines;
use inputs::Contaminant;
use sum_rules::Sums;

// Writes the last word, so that all 128 words add to zero. From the n-th on the words are zero, so that the first n give the sum.
fn put_last_word(out: &mut [u8], n: usize)
    requires { (block_size ≤ length out.old) × (n ≤ 127) × (zeros out.old (4 * n) (508 - 4 * n) ≡ true) }
    ensures { out.new ≡ placed out.old 508 (le4 (last_word out.old)) }
{
    let sum = words::sum(out, n);
    words::put(out, 508, sum.wrapping_neg());
}

// Writes the kind, the place and the two words after them.
fn put_first_words(out: &mut [u8], kind: u32, place: u32, a: u32, b: u32)
    requires { 16 ≤ length out.old }
    ensures { out.new ≡ placed out.old 0 (le4 kind ++ le4 place ++ le4 a ++ le4 b) }
{
    words::put(out, 0, kind);
    words::put(out, 4, place);
    words::put(out, 8, a);
    words::put(out, 12, b);
}

// Writes the block of a header: of kind 1 where inhalation is by intake, of 6 by concentration.
pub fn put_header(out: &mut [u8], h: Header)
    requires { block_size ≤ length out.old }
    ensures { out.new ≡ over (header_block h) out.old }
{
    let s = h.scenario;
    put_first_words(out, s.inhalation.kind(), 0, h.medium, h.count);
    fields::put_all(out, 16, s.exposure.into());
    fields::put_all(out, 48, s.contact.into());
    fields::put_all(out, 96, s.targets.into());
    fields::put_all(out, 112, s.house.into());
    words::clear(out, 176, 16);
    fields::put(out, 192, s.air_hours);
    fields::put_all(out, 200, s.ages.into());
    words::clear(out, 272, 236);
    put_last_word(out, 68);
}

// Writes a block of kind 2.
pub fn put_contaminant(out: &mut [u8], place: u32, r: Contaminant)
    requires { block_size ≤ length out.old }
    ensures { out.new ≡ over (contaminant_block place r) out.old }
{
    put_first_words(out, 2, place, r.class, r.id);
    fields::put_all(out, 16, r.toxicity.into());
    fields::put_all(out, 56, r.transfer.into());
    fields::put_all(out, 72, [r.c, r.saturation]);
    words::clear(out, 88, 8);
    fields::put_all(out, 96, [r.in_air.u, r.in_air.q, r.abs]);
    words::clear(out, 120, 388);
    put_last_word(out, 30);
}

// Writes a block of kind 3: the guidelines of risk by pathway and in total, then those of hazard.
pub fn put_result(out: &mut [u8], place: u32, class: u32, id: u32, g: Guidelines)
    requires { block_size ≤ length out.old }
    ensures { out.new ≡ over (result_block place class id g.risk g.hazard) out.old }
{
    let Sides { risk, hazard } = g;
    put_first_words(out, 3, place, class, id);
    fields::put_all(out, 16, [risk.first, risk.second, risk.third, risk.total]);
    fields::put_all(
        out,
        48,
        [hazard.first, hazard.second, hazard.third, hazard.total],
    );
    words::clear(out, 80, 428);
    put_last_word(out, 20);
}

// Writes a block of kind 4: the sums of risk, those of hazard, and the two verdicts.
pub fn put_summary(out: &mut [u8], a: Sums)
    requires { block_size ≤ length out.old }
    ensures { out.new ≡ over (summary_block a.risk a.hazard) out.old }
{
    let Sides { risk, hazard } = a;
    let r = risk.verdict;
    let h = hazard.verdict;
    put_first_words(out, 4, 0, 0, 0);
    fields::put_all(
        out,
        16,
        [risk.lower, risk.upper, hazard.lower, hazard.upper],
    );
    words::put(out, 48, sums::verdict_number(r));
    words::put(out, 52, sums::verdict_number(h));
    words::clear(out, 56, 452);
    put_last_word(out, 14);
}
