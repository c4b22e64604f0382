// What a capture of a dump gives back: theorems only.
#![tactic(auto)]
