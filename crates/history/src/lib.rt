// Demand 3 and its proof: all of this crate is in specs/.
#![tactic(auto)]
