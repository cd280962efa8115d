// The starred examples of document 01, proved against the definitions: all of this crate is in specs/.
#![tactic(auto)]
