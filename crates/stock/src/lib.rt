// The records of a dataset as a walk over its bytes finds them: laws only.
#![tactic(auto)]
