// Definitions only: the machine on strings and numbers, one step of each statement, a run of k steps.
#![tactic(auto)]
