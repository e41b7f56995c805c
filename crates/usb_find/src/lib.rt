//! Whole configuration sets and device descriptors among any bytes, as a firmware image.
//!
//! What is found is `specs/Found.antt`: [`find`] finds the first, [`find_all`] one after another. A set is tried at each place where its
//! first descriptor can be. What other descriptors lead to is then known of many tries at once: once many bytes were walked over, the
//! ways out of each block of 1,000 bytes are kept, for 131,000 places at a time ([`find_counted`]: at most 600 looks a byte).
#![tactic(auto)]

mod kept;
mod looks;
mod search;
mod series;
mod walk;
mod ways;

pub use kept::Kept;
pub use looks::Looks;
pub use search::{Found, find};
pub use series::{find_all, find_counted};
