// Hill network H of document 01: its worked rows, and the broken versions that the promise of best
// route excludes. Theory only: the statements are in specs/, the proofs in proofs/.
#![tactic(auto)]
