// Computed facts only: the definitions answer the register's scripts.
#![tactic(auto)]
