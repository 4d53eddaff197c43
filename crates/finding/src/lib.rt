// Searching for a name in the tree of a sound area has no code: find is proved to equal it.
#![tactic(auto)]
