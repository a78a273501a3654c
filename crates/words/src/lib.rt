// The words of an image, by their number among the words of all blocks: where each stands, and tables read. Nothing here knows what the
// words mean, and numbers and checks of blocks are passed over.
#![tactic(auto)]

pub mod at;
pub mod entry;
pub mod piece;
pub mod read;
