//! What a sender sends: a catalog of file sets, and the session planned from it (RFC 6968, section 3).
#![tactic(auto)]

mod bodies;
mod catalog;
mod fault;
mod key;
pub mod laws;
mod line;
mod names;
mod params;
mod planner;
mod planning;
mod reading;
mod session;

pub use catalog::{Catalog, CatalogInstance, CatalogItem};
pub use fault::{CatalogFault, PlanFault};
pub use params::{Params, check};
pub use planning::{MOST_BYTES, plan};
pub use reading::read_catalog;
pub use session::{SentInstance, SentObject, Session};
