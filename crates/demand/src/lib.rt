// What every display holds, with nothing assumed of reading and writing: laws only.
#![tactic(auto)]
