// No code: what the lookup of a name answers, by the name's characters, stated in specs/ and proved in proofs/.
#![tactic(auto)]
