// What is written of a sound dataset reads again: laws only.
#![tactic(auto)]
