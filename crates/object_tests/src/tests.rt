//! Tables of objects and what they are.

mod causes;
mod compounds;
mod copies;
mod fields;
mod kinds;
mod lists;
mod same;
mod vectors;
