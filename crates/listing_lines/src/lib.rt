// No code: a listing's lines (specs/Split.antt), what a reader gets back from an annotation's line (specs/Recover.antt), and the
// theorems about them (proofs/Theorem.antt).
#![tactic(auto)]
