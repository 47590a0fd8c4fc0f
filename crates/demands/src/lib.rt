// No code: the theorems of proofs/ that no code cites.
#![tactic(auto)]
