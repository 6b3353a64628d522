// The lines of the listing, put behind a text. Each function asks for a round number of bytes that is never used up.
#![tactic(auto, using(listing_rules::proofs::Lengths::parts))]

ghost use Rattle.std.specs.Prelude.{◌≡◌};
ghost use Rattle.text.specs.Text.{put, HasRoom};
ghost use Rattle.listing_rules.specs.Lines.{spaced, line_of, lines_of, sum_line, refusal_line};

use decimal::Decimal;
use guideline_rules::{Guidelines, SideGuidelines};
use inputs::CHEMICAL;
use listing_rules::Side;
use spelling::{mark_of, put_side, put_verdict};
use sum_rules::SideSums;
use text::Text;

// A space and a decimal, or the mark where it is zero.
fn put_spaced(text: &mut Text, d: Decimal, mark: u8)
    requires { HasRoom text.old 23 }
    ensures { text.new ≡ put text.old (spaced mark d) }
{
    text.put_byte(b' ');
    text.put_decimal(d, mark);
}

// The guidelines of a side: id, side, three pathways, total; a dash where absent.
#[tactic(auto, using(listing_rules::proofs::Lengths::parts), unfolding(listing_rules::specs::Lines::line_of))]
fn put_line(text: &mut Text, id: u32, side: Side, g: SideGuidelines)
    requires { HasRoom text.old 96 }
    ensures { text.new ≡ put text.old (line_of id side g) }
{
    text.put_number(id);
    text.put_byte(b' ');
    put_side(text, side);
    put_spaced(text, g.first, b'-');
    put_spaced(text, g.second, b'-');
    put_spaced(text, g.third, b'-');
    put_spaced(text, g.total, b'-');
    text.put_byte(b'\n');
}

// The lines of a contaminant. Only a chemical has a hazard line.
#[tactic(auto, using(listing_rules::proofs::Lengths::parts), unfolding(listing_rules::specs::Lines::lines_of))]
pub fn put_lines(text: &mut Text, class: u32, id: u32, g: Guidelines)
    requires { HasRoom text.old 192 }
    ensures { text.new ≡ put text.old (lines_of class id g.risk g.hazard) }
{
    put_line(text, id, Side::Risk, g.risk);
    if class != CHEMICAL {
        return;
    }
    put_line(text, id, Side::Hazard, g.hazard);
}

// The sums of a side: its word, lower, upper, verdict.
#[tactic(auto, using(listing_rules::proofs::Lengths::parts), unfolding(listing_rules::specs::Lines::sum_line))]
pub fn put_sums(text: &mut Text, side: Side, t: SideSums)
    requires { HasRoom text.old 64 }
    ensures { text.new ≡ put text.old (sum_line side t) }
{
    let mark = mark_of(t.verdict);
    text.put_word(b"sum ");
    put_side(text, side);
    put_spaced(text, t.lower, mark);
    put_spaced(text, t.upper, mark);
    text.put_byte(b' ');
    put_verdict(text, t.verdict);
    text.put_byte(b'\n');
}

// A refusal: its number and its block.
#[tactic(auto, using(listing_rules::proofs::Lengths::parts), unfolding(listing_rules::specs::Lines::refusal_line))]
pub fn put_refusal(text: &mut Text, n: u32, block: u32)
    requires { HasRoom text.old 48 }
    ensures { text.new ≡ put text.old (refusal_line n block) }
{
    text.put_word(b"refused ");
    text.put_number(n);
    text.put_word(b" block ");
    text.put_number(block);
    text.put_byte(b'\n');
}
