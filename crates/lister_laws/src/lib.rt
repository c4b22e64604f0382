// What the frame lister prints, for every input: theorems only, no code.
#![tactic(auto)]
