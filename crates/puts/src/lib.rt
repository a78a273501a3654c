// Words put into an image, by their number among the words of all blocks, and its blocks sealed. All other bytes stay as they are, and
// nothing here knows what the words mean.
#![tactic(auto)]

pub mod seal;
pub mod table;
pub mod word;
