// The customer's three demands and document 01's eleven cases: theorems only, no code.
#![tactic(auto)]
