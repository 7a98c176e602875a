// Cases of the second program, answered by the definitions: proofs only.
#![tactic(auto)]
