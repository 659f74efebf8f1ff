// What a lowered expression means. The definitions of specs/ say what lowering must give, and the laws of proofs/ that a node then means
// what its expression means; the code is in other crates.
#![tactic(auto)]
