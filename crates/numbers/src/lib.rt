// The numbers of refusal: laws only.
#![tactic(auto)]
