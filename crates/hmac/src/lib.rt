// Keyed digests, HMAC by FIPS 198-1: definitions in specs/, laws in proofs/. There is no code here.
#![tactic(auto)]
