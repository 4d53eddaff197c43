// What the programs print has no code of its own here: it is what is proved of the texts of the crates answers and dumping.
#![tactic(auto)]
