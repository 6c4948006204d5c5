//! Watchers, the lines that they write, and watchers in boxes.

mod boxes;
mod lines;
mod same;
mod watchers;
