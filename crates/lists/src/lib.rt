// Functions on lists and bytes that the definitions are written with, and their laws; nothing here knows of a disc. All of this crate is in specs/.
#![tactic(auto)]
