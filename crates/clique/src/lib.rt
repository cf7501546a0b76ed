// Sets of whole numbers in which every two differ by a forbidden latency, the lower bound that each gives, and that Bound is the size of the largest: definitions and
// laws (specs/Sets.antt, proofs/LargestLaws.antt, proofs/LowerLaws.antt, proofs/SegmentLaws.antt, proofs/RowLaws.antt).
#![tactic(auto)]
