//! Tables of catalogs and of sessions.

mod catalogs;
mod checks;
mod datagrams;
mod plans;
mod same;
mod sessions;
