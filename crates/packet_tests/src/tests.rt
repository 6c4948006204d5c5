//! Tables of bytes and of what they say.

mod blocks;
mod datagrams;
mod headers;
mod making;
mod packets;
mod refusals;
mod same;
mod widths;
