// What the lowering pass leaves is the code of the program. The laws of proofs/ go from a statement's lowered words to the code that the
// step loop runs; the code that makes the words is in other crates.
#![tactic(auto)]
