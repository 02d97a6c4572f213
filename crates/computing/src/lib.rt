// One definition that unfolds all others, for facts that are proved by computing.
#![tactic(auto)]
