//! Where datagrams come from and go to.

/// Where datagrams come from and go to.
#[derive(Clone, Copy, Debug, PartialEq, Eq)]
pub enum Place {
    /// A packet log.
    Log,
    /// A UDP address over IPv4.
    Udp { ip: [u8; 4], port: u16 },
}
