// Walks over numbered roads, and the best label that a walk of any length can bring. Theory only:
// the definitions are in specs/, the theorems in proofs/.
#![tactic(auto)]
