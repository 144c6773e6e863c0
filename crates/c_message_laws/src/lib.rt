// The calls that read and write messages are inverse on bytes too: theorems over what they promise, in specs/. No code.
#![tactic(auto)]
