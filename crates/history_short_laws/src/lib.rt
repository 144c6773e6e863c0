// Restarts from short reports: each tells of a shard only the run of the view that it reports. No code.
#![tactic(auto)]
