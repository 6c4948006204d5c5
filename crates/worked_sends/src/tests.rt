//! Sending, drills and dumps, over forms in memory; and a send over the loopback device.

mod drills;
mod dumps;
mod loopback;
mod same;
mod sends;
