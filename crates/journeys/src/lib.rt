// Journeys over the roads of a file: walks, what is feasible, the charge to set off with and why there
// is no route. Definitions and what is proved of them; there is no code.
#![tactic(auto)]
