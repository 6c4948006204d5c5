//! Each device failing at each of its calls, over forms in memory.

mod devices;
mod dumping;
mod left;
mod listening;
mod receiving;
mod same;
mod sending;
mod wanting;
mod wants;
