// The three demands over the definitions of what the questions answer. This crate has definitions and theorems only, and no code.

#![tactic(auto)]
