// What is claimed of a port that callers share, over every list of calls: when each caller's task starts, and that they take turns. Definitions and laws for
// whoever reads them. It has no code.
#![tactic(auto)]
