// Theorems only: see specs/.
#![tactic(auto)]
