// A line that is read byte by byte says what its words mean: theorems only, no code.
#![tactic(auto)]
