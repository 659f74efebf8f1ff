// The lowered words of a program, under the actions of the step loop, do what the definition says of the program. The laws of proofs/ give
// the step loop what it asks of the words that it runs; the code is in other crates.
#![tactic(auto)]
