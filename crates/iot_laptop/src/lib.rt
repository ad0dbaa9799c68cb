//! A client with its name, its place and its link: what it does alone, and what it makes of each reply of the server.
#![tactic(auto)]

mod calls;
mod errand;
mod events;
mod heads;
mod laptop;
mod links;
mod needs;
mod seated;
mod texts;
mod verdict;

pub use errand::Errand;
pub use laptop::Laptop;
pub use needs::{Certified, Gone, Need, Submitted, Undecided};
pub use seated::Seated;
pub use verdict::{Told, Verdict};
