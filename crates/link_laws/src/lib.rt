// Laws of links that code takes apart: all of this crate is in specs/.
#![tactic(auto)]
