// Small laws that belong to no definition of ours. This crate has theorems only, and no code.

#![tactic(auto)]
