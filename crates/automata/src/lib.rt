// Automata for forms, as mathematics: the definitions are in specs/, the theorems about them in proofs/.
// That it can be told of every view whether it is clear is a field of what `judge` promises (crate views).
#![tactic(auto)]
