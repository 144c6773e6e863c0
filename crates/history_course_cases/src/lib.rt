// Worked courses of a group over several restarts. No code.
#![tactic(auto)]
