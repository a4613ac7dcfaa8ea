// No code: what a derivation says of a recording, and that the reading by place says the same.
#![tactic(auto)]
