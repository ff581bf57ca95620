// Records laid out for the archive: definitions in specs/, laws in proofs/. There is no code here.
#![tactic(auto)]
