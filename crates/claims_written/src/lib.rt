// No code: that written metadata reads back as the table it was written from, stated in specs/ and proved in proofs/.
#![tactic(auto)]
