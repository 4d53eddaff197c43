// The history has no code: it is what is proved of the calls taken together.
#![tactic(auto)]
