// EDON-R's quasigroup: definitions in specs/, laws in proofs/. There is no code here.
#![tactic(auto)]
