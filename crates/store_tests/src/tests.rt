//! Stores of a session's packets.
mod counts;
mod keeping;
mod same;
mod symbols;
