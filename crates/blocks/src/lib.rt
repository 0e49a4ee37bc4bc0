// Letters that arrive in blocks, octet by octet: definitions and theorems, no code. The engine that meets them is the crate `engine`.

#![tactic(auto)]
