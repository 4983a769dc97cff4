#![tactic(auto)]

// Nothing to run: document 01's worked cases, held against the definitions. The cases stand in specs/, the claims in proofs/.
