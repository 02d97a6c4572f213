// Definitions only: the open calls on bytes and numbers, what they promise, and the demands about every list of them.
#![tactic(auto)]
