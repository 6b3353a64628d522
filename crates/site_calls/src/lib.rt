// A case of the program site_cases: the site call and the listing on a site, and what is printed of them.
#![tactic(auto)]

ghost use Rattle.std.specs.Prelude.{◌≡◌, ◌≤◌, length, replicate, OnOk};
ghost use Rattle.std.specs.Io.KnownBytes.{Appends};
ghost use Rattle.site_calls.specs.Lines.{answer_line, output_line, case_text};

use outcome::Refused;
use std::io::{self, Write};
use sum_rules::Sums;

// The output before the call: every byte 165, so that a byte that is written shows.
fn fill(out: &mut [u8])
    ensures { out.new ≡ replicate (length out.old) 165 }
{
    out.fill(165);
}

// Prints a line: a word, a number, a line feed.
fn print_answer<W: Write>(output: &mut W, a: Result<Sums, Refused>) -> io::Result<()>
    ensures { OnOk result (Appends (W.contents output.old) (W.contents output.new) (answer_line a)) }
{
    let packed = c_structs::pack(a);
    writeln!(output, "answer {packed:016x}")
}

fn print_output<W: Write>(output: &mut W, out: &[u8]) -> io::Result<()>
    requires { length out.now ≤ 65536 }
    ensures { OnOk result (Appends (W.contents output.old) (W.contents output.new) (output_line out.now)) }
{
    let weight = case_output::weigh(out);
    writeln!(output, "output {weight}")
}

// Lists a site with an output of the given bytes, and prints what came of it.
pub fn run_case<W: Write>(output: &mut W, site: &[u8], out: &mut [u8]) -> io::Result<()>
    requires { length out.old ≤ 65536 }
    ensures { OnOk result (Appends (W.contents output.old) (W.contents output.new) (case_text site.now (length out.old))) }
{
    fill(out);
    let mut text = [0u8; 24576];
    let listed = listing::list_site(site, out, &mut text);
    let n = listed.length;
    output.write_all(&text[..n])?;
    print_answer(output, listed.answer)?;
    print_output(output, out)
}
