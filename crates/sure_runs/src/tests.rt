//! Runs over devices that never fail, for each status that they can end with.

mod same;
mod sure;
