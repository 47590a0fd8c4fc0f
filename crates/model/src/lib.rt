// No code: the definitions of specs/, and the laws of proofs/ that code is proved by.
#![tactic(auto)]
