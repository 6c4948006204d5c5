//! Listening, over forms in memory.

mod listen_beside;
mod listens;
mod same;
