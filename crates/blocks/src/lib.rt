// Reading the blocks of a site: the header and the contaminants.
#![tactic(auto)]

ghost use Rattle.std.specs.Prelude.{◌≡◌, ◌+◌, ◌*◌, ◌≤◌, eqb, length};
ghost use Rattle.words.specs.Words.{part_of};
ghost use Rattle.block_rules.specs.Pieces.{behind_gap, unused_in};
ghost use Rattle.block_rules.specs.Rules.{in_file, count_ok, block_size, struct_size};
ghost use Rattle.block_rules.specs.Reading.{scenario_at, header_at, contaminant_at, header_unused, contaminant_unused, sound_at, header_read, contaminant_read};

use block_rules::{BLOCK_SIZE, Header};
use inputs::{Contaminant, Inhalation, MOST_CONTAMINANTS, Scenario};
use outcome::Refusal;

// Whether a count or a place is from 1 to 120.
#[tactic(auto, unfolding(block_rules::specs::Rules::in_file))]
pub fn in_file(n: u32) -> bool
    ensures { result ≡ in_file n }
{
    (1 <= n) & (n <= MOST_CONTAMINANTS)
}

// Whether the count is from 1 to 120 and one less than the number of blocks.
fn count_ok(count: u32, blocks: u32) -> bool
    ensures { result ≡ count_ok count blocks }
{
    if !in_file(count) {
        return false;
    }
    count + 1 == blocks
}

// Whether the slice has a whole block at `at`.
fn has_block(site: &[u8], at: usize) -> bool
    ensures { result ≡ eqb (length (part_of site.now at block_size)) block_size }
{
    let n = site.len();
    if n < BLOCK_SIZE {
        return false;
    }
    at <= n - BLOCK_SIZE
}

// Whether the words of the block add to zero, and its place is the one given.
fn sound(block: &[u8], place: u32) -> bool
    requires { block_size ≤ length block.now }
    ensures { result ≡ sound_at block.now place }
{
    let sum = words::sum(block, 128);
    let found = words::word(block, 4);
    (sum == 0) & (found == place)
}

// The scenario whose first decimal stands at `at`, with inhalation worked out so.
fn get_scenario(part: &[u8], at: usize, inhalation: Inhalation) -> Scenario
    requires { at + 256 ≤ length part.now }
    ensures { result ≡ scenario_at inhalation part.now at }
{
    Scenario {
        exposure: fields::read_all(part, at).into(),
        contact: fields::read_all(part, at + 32).into(),
        targets: fields::read_all(part, at + 80).into(),
        house: fields::read_all(part, at + 96).into(),
        air_hours: fields::read(part, at + 176),
        ages: fields::read_all(part, at + 184).into(),
        inhalation,
    }
}

// The header whose medium stands at `at`: in the 504 bytes between kind and last word at 4, in a struct of C at 0.
pub fn get_header(part: &[u8], at: usize, inhalation: Inhalation) -> Header
    requires { at + 264 ≤ length part.now }
    ensures { result ≡ header_at inhalation part.now at }
{
    Header {
        medium: words::word(part, at),
        count: words::word(part, at + 4),
        scenario: get_scenario(part, at + 8, inhalation),
    }
}

// Whether the unused bytes are zero from a gap at `at` on, behind which n decimals and so many further bytes stand. It
// stands by itself, so that blocks with nothing there do not pay for it.
#[cold]
#[inline(never)]
fn gap_unused(part: &[u8], at: usize, gap: usize, n: usize, rest: usize) -> bool
    requires { at + (gap + (8 * n + rest)) ≤ length part.now }
    ensures { result ≡ unused_in (behind_gap gap n rest) part.now at }
{
    let before = words::all_zero(part, at, gap);
    let later = fields::unused_zero(part, at + gap, n);
    let end = at + gap + 8 * n;
    before & later & words::all_zero(part, end, rest)
}

// Whether the unused bytes of a header are zero. Where all bytes behind the house are, one test is enough.
pub fn header_unused(part: &[u8], at: usize) -> bool
    requires { at + struct_size ≤ length part.now }
    ensures { result ≡ header_unused part.now at }
{
    let before = fields::unused_zero(part, at + 8, 20);
    if words::all_zero(part, at + 168, 332) {
        return before;
    }
    before & gap_unused(part, at + 168, 16, 10, 236)
}

// The contaminant whose class stands at `at`: in the 504 bytes between kind and last word at 4, in a struct of C at 0.
pub fn get_contaminant(part: &[u8], at: usize) -> Contaminant
    requires { at + 112 ≤ length part.now }
    ensures { result ≡ contaminant_at part.now at }
{
    Contaminant {
        class: words::word(part, at),
        id: words::word(part, at + 4),
        toxicity: fields::read_all(part, at + 8).into(),
        transfer: fields::read_all(part, at + 48).into(),
        c: fields::read(part, at + 64),
        saturation: fields::read(part, at + 72),
        in_air: fields::read_all(part, at + 88).into(),
        abs: fields::read(part, at + 104),
    }
}

// Whether the unused bytes of a contaminant are zero. Where all bytes behind the saturation are, one test is enough.
pub fn contaminant_unused(part: &[u8], at: usize) -> bool
    requires { at + struct_size ≤ length part.now }
    ensures { result ≡ contaminant_unused part.now at }
{
    let before = fields::unused_zero(part, at + 8, 9);
    if words::all_zero(part, at + 80, 420) {
        return before;
    }
    before & gap_unused(part, at + 80, 8, 3, 388)
}

// The header of a site of so many blocks: its first 512 bytes.
pub fn read_header(site: &[u8], blocks: u32) -> Result<Header, Refusal>
    ensures { result ≡ header_read (part_of site.now 0 block_size) blocks }
{
    if !has_block(site, 0) {
        return Err(Refusal::Length);
    }
    if !sound(&site[0..BLOCK_SIZE], 0) {
        return Err(Refusal::Check);
    }
    let kind = words::word(site, 0);
    if !inputs::is_header_kind(kind) {
        return Err(Refusal::Kind);
    }
    let part = &site[4..508];
    let h = get_header(part, 4, Inhalation::of(kind));
    let s = h.scenario;
    let fit = inputs::scenario_fits(s, h.medium) & header_unused(part, 4);
    if !fit {
        return Err(Refusal::Field);
    }
    if !count_ok(h.count, blocks) {
        return Err(Refusal::Count);
    }
    if inputs::lacks_factor(s) {
        return Err(Refusal::Factor);
    }
    Ok(h)
}

// The contaminant in the block at `at`, which is to have this place and an id above the one before.
pub fn read_contaminant(
    site: &[u8],
    at: usize,
    place: u32,
    previous: u32,
) -> Result<Contaminant, Refusal>
    ensures { result ≡ contaminant_read (part_of site.now at block_size) place previous }
{
    if !has_block(site, at) {
        return Err(Refusal::Length);
    }
    let end = at + BLOCK_SIZE;
    if !sound(&site[at..end], place) {
        return Err(Refusal::Check);
    }
    if words::word(site, at) != 2 {
        return Err(Refusal::Kind);
    }
    let from = at + 4;
    let to = at + 508;
    let part = &site[from..to];
    let r = get_contaminant(part, 4);
    let fit = inputs::contaminant_fits(r) & contaminant_unused(part, 4);
    if !fit {
        return Err(Refusal::Field);
    }
    if r.id <= previous {
        return Err(Refusal::Order);
    }
    Ok(r)
}
