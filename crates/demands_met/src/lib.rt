// Every hypothesis of the demands is met by something computed: theorems only, no code.
#![tactic(auto)]
