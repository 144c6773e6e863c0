// Machines and leaders that keep the rule for views on disk lose nothing from one restart to the next. No code.
#![tactic(auto)]
