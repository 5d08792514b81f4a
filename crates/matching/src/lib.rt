// What document 01 means: the definitions are in specs/, nearly in the paper's order. This crate has no functions.
#![tactic(auto)]
