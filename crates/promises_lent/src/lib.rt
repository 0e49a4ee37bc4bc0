// Nothing at run time: what is promised of the short normal form in lent scratch (specs/Promises), and why it holds.

#![tactic(auto)]
