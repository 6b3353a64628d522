// The fixed words of the listing, put behind a text.
#![tactic(auto)]

ghost use Rattle.std.specs.Prelude.{◌≡◌};
ghost use Rattle.text.specs.Text.{put, HasRoom};
ghost use Rattle.listing_rules.specs.Lines.{side_word, verdict_word, mark_of};
ghost use Rattle.spelling.specs.Numbered.{side_numbered};

use listing_rules::Side;
use sum_rules::Verdict;
use text::Text;

// The side of a number, for callers that have a number: 0 risk, any other hazard.
pub fn side_of(n: u32) -> Side
    ensures { result ≡ side_numbered n }
{
    if n == 0 {
        return Side::Risk;
    }
    Side::Hazard
}

// The word of a side.
pub fn put_side(text: &mut Text, side: Side)
    requires { HasRoom text.old 6 }
    ensures { text.new ≡ put text.old (side_word side) }
{
    match side {
        Side::Risk => text.put_word(b"risk"),
        Side::Hazard => text.put_word(b"hazard"),
    }
}

// The word of a verdict.
pub fn put_verdict(text: &mut Text, v: Verdict)
    requires { HasRoom text.old 9 }
    ensures { text.new ≡ put text.old (verdict_word v) }
{
    match v {
        Verdict::Within => text.put_word(b"within"),
        Verdict::Above => text.put_word(b"above"),
        Verdict::Undecided => text.put_word(b"undecided"),
        Verdict::NoPathway => text.put_word(b"none"),
    }
}

// What stands for a zero sum: 0, or a dash where no pathway was there to be added.
pub fn mark_of(v: Verdict) -> u8
    ensures { result ≡ mark_of v }
{
    match v {
        Verdict::Within | Verdict::Above | Verdict::Undecided => b'0',
        Verdict::NoPathway => b'-',
    }
}
