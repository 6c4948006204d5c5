//! Receiving, over forms in memory.

mod budgets;
mod recvs;
mod replays;
mod rows;
mod same;
mod sessions;
mod tellings;
mod words;
