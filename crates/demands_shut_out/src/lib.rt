// Wrong chips, each right but for one fault, and each shut out by a statement of `demands`: theorems only, no code.
#![tactic(auto)]
