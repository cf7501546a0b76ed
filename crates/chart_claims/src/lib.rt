// What is claimed of the chart of a plan: that it shows the tasks of the plan's cycle, each where it is, and when it is refused. Definitions and laws for
// whoever reads them. It has no code.
#![tactic(auto)]
