// Definitions only: bytes and their classes, lines, cards, joined statements, packing.
#![tactic(auto)]
