//! Hubs, their publishers and their readers.

mod hubs;
mod running;
mod same;
mod turns;
