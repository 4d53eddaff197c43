// The walk as definitions, over any bytes, and the proof that it decides soundness: both ways, and within its bound of steps.
// No code stands here: the crates probes, works and tour make these steps.
#![tactic(auto)]
