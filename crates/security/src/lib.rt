// A Counter-Party's security: what an instrument holds, and how it is drawn and funded.
#![tactic(auto)]

mod cash;
mod instrument;
mod letter;
mod means;
mod pair;

pub use cash::Cash;
pub use instrument::Instrument;
pub use letter::Letter;
pub use means::{FundingRefused, Means, UnknownMeans};
pub use pair::Pair;
