// Blocks of 512 bytes: one word of a block, the check of a block, and the judging of an image's blocks. Nothing is written here, and
// nothing here knows what the words mean.
#![tactic(auto)]

pub mod check;
pub mod judge;
pub mod word;
