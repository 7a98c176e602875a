// Demands 1 and 2 of the entry points, over answers and bytes alone: laws only.
#![tactic(auto)]
