// Histories of views and logs, and what no history that keeps the rule of views can lose. No code.
#![tactic(auto)]
