// What a run of the program can come to: theorems only, in specs/. No code.
#![tactic(auto)]
