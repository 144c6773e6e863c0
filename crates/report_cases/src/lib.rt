// Worked examples of a report beside what is kept, of what is kept after it, and of sound states. No code.
#![tactic(auto)]
