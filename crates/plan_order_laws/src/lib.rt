// Laws of orders: the writer never refuses the order of a held node under a sound plan.
#![tactic(auto)]
