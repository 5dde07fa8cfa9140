// No code: the definitions are in specs/, the theorems about them in proofs/.
#![tactic(auto)]
