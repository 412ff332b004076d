// One pool's ledger: registering, billing, paying, securing and drawing.
#![tactic(auto)]

mod answers;
mod charges;
mod fault;
mod ledger;
mod registry;

pub use answers::{Billed, Report};
pub use fault::Fault;
pub use ledger::Ledger;
pub use registry::Fault as RegistryFault;
