//! What follows from the definitions of the model: laws of passes, of the serial loop, of sleep and of next times.
#![tactic(auto)]
