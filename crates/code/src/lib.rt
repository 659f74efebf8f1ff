// What the lowered words of a whole program are. The definitions of specs/ stand between lowering, which gives such words, and the step
// loop, which runs them; the code is in other crates.
#![tactic(auto)]
