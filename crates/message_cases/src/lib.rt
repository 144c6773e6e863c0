// The small examples of document 01's table for rows 2 and 5 to 11, computed from the definitions. No code.
#![tactic(auto)]
