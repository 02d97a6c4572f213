// Computed facts only: the definitions answer the vectors.
#![tactic(auto)]
