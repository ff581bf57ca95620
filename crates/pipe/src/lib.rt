// The pipe forward and back through blocks: definitions in specs/, laws in proofs/. There is no code here.
#![tactic(auto)]
