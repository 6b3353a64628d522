// The formulas of the terms, rounded and exact: definitions and theorems, no function; and what each side has of something.
#![tactic(auto)]

// What risk has of something, and what hazard has of it.
#[derive(Clone, Copy)]
pub struct Sides<T> {
    pub risk: T,
    pub hazard: T,
}
