// Document 01's runs A to I as one table: what decide hands back in A to F and I, and the cuts of G, H and J. No code.
#![tactic(auto)]
