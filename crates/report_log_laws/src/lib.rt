// Laws of updates, stretches of logs and cuts.
#![tactic(auto)]
