// The papers' worked examples: a constant list of rows, and the proof that every row holds (specs/Rows.antt, proofs/EveryRow.antt).
#![tactic(auto)]
