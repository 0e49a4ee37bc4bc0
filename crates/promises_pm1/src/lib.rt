// What is promised of the PM1 desk (W-210), over the definitions of what its question answers. This crate has definitions and theorems only, and no code.

#![tactic(auto)]
