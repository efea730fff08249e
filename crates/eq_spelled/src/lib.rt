//! What a text is read as is spelled as elaboration takes it: what the grammar gives of the modules of a text, whatever
//! they mean. There is no code here but empty functions, whose contracts are the laws.
//!
//! - `laws`: the modules of one text, and those of several, are spelled (`IsModuleSpelled` of `eq_flatten`).
#![tactic(auto)]

pub mod laws;
