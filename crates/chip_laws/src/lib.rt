// What is owed of the whole chip, beyond the equation that `step` meets: theorems only, no code.
#![tactic(auto)]
