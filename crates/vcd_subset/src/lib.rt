// Which texts order 7 reads: theorems only.
#![tactic(auto)]
