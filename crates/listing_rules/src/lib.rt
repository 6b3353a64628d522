// The listing as text: definitions and theorems, and the side that a line names; no function.

#![tactic(auto)]

// The side that a line is of.
#[derive(Clone, Copy)]
pub enum Side {
    Risk,
    Hazard,
}
