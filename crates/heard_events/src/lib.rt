//! What a run of a program was brought: the events that it heard are the first of those that were to come, and `End` for each that
//! isn't there. Definitions and lemmas alone, for every program that hears the world's events.
#![tactic(auto)]
