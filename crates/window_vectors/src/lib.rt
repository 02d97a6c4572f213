// Computed facts only: the definitions answer the window's scripts.
#![tactic(auto)]
