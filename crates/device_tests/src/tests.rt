//! The forms over real devices: over readers and writers that fail, and the loopback device.

mod devices;
mod logs;
mod pace;
mod placed;
mod readers;
mod same;
mod udp;
mod writers;
