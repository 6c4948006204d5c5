//! Tables of elements, symbols and blocks.

mod field;
mod same;
mod solving;
mod symbols;
mod zeros;
