// What a header block holds. The layouts are in specs/, what is read back of them in proofs/; there is no function.
#![tactic(auto)]

use inputs::Scenario;

// The bytes of a block.
pub const BLOCK_SIZE: usize = 512;

// Bytes 8 to 507 of a block, which are a struct of the C library.
pub const STRUCT_SIZE: usize = 500;

// What a header block holds: the medium (1 soil, 2 water), how many contaminants follow, the scenario.
#[derive(Clone, Copy)]
pub struct Header {
    pub medium: u32,
    pub count: u32,
    pub scenario: Scenario,
}
