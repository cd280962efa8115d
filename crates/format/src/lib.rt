// The definitions of document 01 and their laws: all of this crate is in specs/.
#![tactic(auto)]
