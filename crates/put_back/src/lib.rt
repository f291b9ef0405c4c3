// Puts a look back into a source, both of them cut texts: part by part, each part of the look into its part of the source.
// Not here: how the texts are cut (crate marks), and what a part that is new in the look turns into (crate walk).
#![tactic(auto)]

mod putting;

pub use putting::PutBack;
