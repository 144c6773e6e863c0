// Pages of worked worlds, from the definition: theorems, in specs/. No code.
#![tactic(auto)]
