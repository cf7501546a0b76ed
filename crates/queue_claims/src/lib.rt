// What is claimed of the queue over every list of calls: when a waiting task starts, and that its tasks are the issue controller's. Definitions and laws
// for whoever reads them. It has no code.
#![tactic(auto)]
