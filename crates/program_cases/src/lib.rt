// Document 01's runs at the level of the program: theorems only, in specs/.
#![tactic(auto)]
