// No code: what holds of an accepted recording, by the definitions that the reader's contract cites.
#![tactic(auto)]
