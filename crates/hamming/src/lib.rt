// Records of two digests and the bits in which the two differ: definitions in specs/, laws in proofs/. There is no code here.
#![tactic(auto)]
