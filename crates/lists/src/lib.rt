// Lists of numbers: entries, stores, and how many entries are 0. Theory only: the definitions are in
// specs/, the laws in proofs/.
#![tactic(auto)]
