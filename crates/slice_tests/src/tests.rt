//! Cuts, and groups of slices.

mod cuts;
mod files;
mod joins;
mod same;
