// What is promised of a letter that is made. This crate has definitions and theorems only, and no code.

#![tactic(auto)]
