// Finite sums and their laws. No code; all is in specs/.
#![tactic(auto)]
