// No code: the grammar of JSON texts (specs/Grammar.antt), the reading of a text by place (specs/ByPlace.antt), and the
// theorem that the two accept the same texts (proofs/Theorem.antt).
#![tactic(auto)]
