// The placements of a subgroup as masks and as owners: theorems, no code; all is in specs/.
#![tactic(auto)]
