// Order 5: what a program gets by polls and runs is what it gets by the single events that they stand for: theorems only, no
// code.
#![tactic(auto)]
