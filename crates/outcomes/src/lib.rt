// What contracts determine: laws only.
#![tactic(auto)]
