// Reader and writer are inverse: theorems over the definitions of the message format, in specs/. No code.
#![tactic(auto)]
