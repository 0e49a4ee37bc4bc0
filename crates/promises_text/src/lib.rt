// Nothing at run time: what is promised of the whole reading (specs/NoStaleText) and of its sources (specs/Sources), and why it holds.

#![tactic(auto)]
