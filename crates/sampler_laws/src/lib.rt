// The sampling rule, by the pulses that it looks at: theorems only, no code.
#![tactic(auto)]
