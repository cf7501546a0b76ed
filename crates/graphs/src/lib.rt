// Graphs given by rule, their walks and cycles, and the list of their states: definitions and laws for the crates above. It has no code.
#![tactic(auto)]
