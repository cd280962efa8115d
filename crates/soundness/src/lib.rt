// What a sound disc is, as facts instead of tests, and what stays when sectors are written: all of this crate is in specs/.
#![tactic(auto)]
