// What a dump shows: theorems only.
#![tactic(auto)]
