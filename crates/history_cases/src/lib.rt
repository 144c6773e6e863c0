// Document 01's runs A to I and Request Five's J, computed from the definitions. No code.
#![tactic(auto)]
