// What is claimed of loops beyond the contract of the call, and Fig. 2's loop: definitions and laws for whoever reads them. It has no code.
#![tactic(auto)]
