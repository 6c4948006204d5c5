//! Lines of words and the commands that they are.

mod commands;
mod ranges;
mod same;
mod telling;
