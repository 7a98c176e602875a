// The attribute tree: definitions only.
#![tactic(auto)]
