// What is claimed of the totals over small tables (specs/Claims.antt) and the totals of the two smallest sizes (specs/Examples.antt), with their proofs.
// There is no code.
#![tactic(auto)]
