// No code: ranges, lists of steps and what holds of them stand in specs/ and proofs/.
#![tactic(auto)]
