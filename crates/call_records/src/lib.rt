// What the program call_cases reads from standard input, and the loan of a list's first records to the list call. The checks
// of a block are left out, so that values which no file may hold reach the calls too.
#![tactic(auto)]

ghost use Rattle.std.specs.Prelude.{◌≡◌, ◌≤◌, take, IfOk};
ghost use Rattle.sum_rules.specs.ListCall.{sums_of};

use block_rules::Header;
use input_bytes::read_full;
use inputs::{Contaminant, Inhalation, Scenario};
use outcome::Refused;
use std::io::{self, Read};
use sum_rules::Sums;

// The first 288 bytes of the next header block, unchecked: inhalation is by concentration where its kind is 6, otherwise by
// intake. What the input does not give of them is of zeros.
pub fn read_header<R: Read>(input: &mut R) -> io::Result<Header> {
    let mut block = [0u8; 288];
    read_full(input, &mut block)?;
    let kind = words::word(&block, 0);
    Ok(blocks::get_header(&block, 8, Inhalation::of(kind)))
}

// The first 128 bytes of the next contaminant block, likewise.
pub fn read_contaminant<R: Read>(input: &mut R) -> io::Result<Contaminant> {
    let mut block = [0u8; 128];
    read_full(input, &mut block)?;
    Ok(blocks::get_contaminant(&block, 8))
}

// The first `count` contaminants of a list; those after them are of zeros.
#[derive(Clone, Copy)]
pub struct Records {
    pub list: [Contaminant; 121],
    pub count: usize,
    pub ghost within: { count ≤ 121 },
}

// The contaminants in the next n blocks.
pub fn read_records<R: Read>(input: &mut R, n: usize) -> io::Result<Records>
    requires { n ≤ 121 }
    ensures { IfOk result (λ r. r.count ≡ n) }
{
    let mut list = [Contaminant::NONE; 121];
    for r in &mut list[..n] {
        *r = read_contaminant(input)?;
    }
    Ok(Records { list, count: n })
}

impl Records {
    // Lends them to the list call.
    pub fn sums(&self, s: Scenario, medium: u32) -> Result<Sums, Refused>
        ensures { result ≡ sums_of s medium (take self.now.count self.now.list) }
    {
        list_sums::sums_of_list(s, medium, &self.list[..self.count])
    }
}
