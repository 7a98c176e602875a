// The rules' updates as a run over records with keys: laws only.
#![tactic(auto)]
