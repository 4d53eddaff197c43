// Growth has no code: these are the laws of what a change at one place of a tree does to an area.
#![tactic(auto)]
