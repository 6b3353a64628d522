// The single guideline worked out by the site call, on a site of one contaminant that is written for it.
#![tactic(auto)]

ghost use Rattle.std.specs.Prelude.{◌≡◌, ◌<◌, length};
ghost use Rattle.guideline_rules.specs.Guideline.{guideline_of};
ghost use Rattle.one_contaminant.specs.Single.{Single};

use block_rules::Header;
use guideline_rules::Guidelines;
use inputs::Contaminant;
use outcome::Refused;

// Writes the site of one contaminant; or the refusal of the header in block 0, of the contaminant in block 1.
fn write_single(site: &mut [u8], h: Header, r: Contaminant) -> Result<(), Refused>
    requires { length site.old ≡ 1024 }
    ensures { Single h r result site.new }
{
    let scenario = h.scenario;
    let one = Header {
        medium: h.medium,
        count: 1,
        scenario,
    };
    writers::write_header(site, one)?;
    match writers::write_contaminant(&mut site[512..1024], 1, r) {
        Ok(()) => Ok(()),
        Err(refused) => Err(refused.refusal.in_block(1)),
    }
}

// The single guideline, worked out by the site call on a site of one contaminant: a second way to the terms in this library
// would cost the site call its speed (docs/SPEED.md).
pub fn single(h: Header, r: Contaminant) -> Result<Guidelines, Refused>
    requires { r.id < 4294967296 }
    ensures { result ≡ guideline_of h.scenario h.medium r }
{
    let mut site = [0u8; 1024];
    write_single(&mut site, h, r)?;
    let mut results = [0u8; 1024];
    site::evaluate(&site, &mut results)?;
    let risk = listing::get_side(&results[512..1024], 16);
    let hazard = listing::get_side(&results[512..1024], 48);
    Ok(Guidelines { risk, hazard })
}
