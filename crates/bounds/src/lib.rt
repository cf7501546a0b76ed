// The textbook bounds on the average latency: every plan that a read hands out, and every greedy cycle, lies between them (specs/Bounds.antt,
// proofs/EveryPlan.antt, proofs/BoundsLaws.antt).
#![tactic(auto)]
