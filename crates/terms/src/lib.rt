// The terms of the specification: the risk or hazard that one unit of concentration brings by each pathway.
#![tactic(auto)]

pub mod pathways;
