// Steps that can be taken back: definitions in specs/, laws in proofs/. There is no code here.
#![tactic(auto)]
