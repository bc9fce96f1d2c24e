// What stands in scripts, and what is printed of it: lines, words, texts in quotes, sets, and the places of the fields in a text.
#![tactic(auto)]

pub mod fields;
pub mod lines;
pub mod literals;
pub mod sets;
pub mod words;
