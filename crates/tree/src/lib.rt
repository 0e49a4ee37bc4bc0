// What a stream stands for. This crate has definitions and theorems only, and no code.

#![tactic(auto)]
