// Soundness has no code: it is what check and listing decide, what the history leaves, and what a lookup is proved on.
#![tactic(auto)]
