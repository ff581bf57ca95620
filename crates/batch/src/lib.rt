// The digests of many messages in one call: definitions in specs/, laws in proofs/. There is no code here.
#![tactic(auto)]
