// Updates in sequence: laws only.
#![tactic(auto)]
