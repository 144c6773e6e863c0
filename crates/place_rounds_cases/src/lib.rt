// Worked rounds, from the definition: theorems, in specs/. No code.
#![tactic(auto)]
