// What is promised of the characters of a text, over the definitions of what the question answers. This crate has definitions and theorems only, and no code.

#![tactic(auto)]
