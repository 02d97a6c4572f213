// Computed facts only: document 01's trade lines P1 to P12, and the deck LOTS with its run.
#![tactic(auto)]
