//! Rows of whole runs, with their events, status, report and shelf.

mod budgets;
mod cut_log;
mod plans;
mod refusals;
mod rows;
mod same;
mod sessions;
mod station;
mod told;
mod watched;
mod watchers;
