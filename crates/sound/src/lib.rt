// What is true of every dataset that is read and of every result: laws only.
#![tactic(auto)]
