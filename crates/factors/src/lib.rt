// The decimals of a scenario and a contaminant as numbers, and the products of a scenario that every contaminant shares.
#![tactic(auto)]

pub mod numbers;
pub mod prepared;
