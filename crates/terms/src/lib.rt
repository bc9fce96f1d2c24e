// The terms that every layer shares.
#![tactic(auto)]

pub mod refusals;
pub mod sets;
pub mod short_list;
