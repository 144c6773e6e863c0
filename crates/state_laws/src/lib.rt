// That decide plans and waits exactly where document 01 says: theorems over what it promises, in specs/. No code.
#![tactic(auto)]
