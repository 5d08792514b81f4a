// What is proved of the definitions of document 01: the laws are in specs/. This crate has no functions.
#![tactic(auto)]
