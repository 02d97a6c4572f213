// Definitions only: the statements of a program and how they are read from packed statements.
#![tactic(auto)]
