//! What an image of a server's disk shows.
#![tactic(auto)]

mod shown;

pub use shown::show_image;
