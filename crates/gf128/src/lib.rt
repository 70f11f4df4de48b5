// Definitions and laws of the GHASH field and hash, for the crates above. It holds no code.
#![tactic(auto)]
