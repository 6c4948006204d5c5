//! What a run tells of each datagram.

/// What became of one datagram, or that another instance is installed.
#[derive(Clone, Copy, PartialEq, Eq, Debug)]
pub enum Event {
    /// The datagram is no packet: the refusal's code and its detail.
    Refused {
        code: u8,
        detail: u64,
    },
    /// The datagram belongs to another session.
    Elsewhere {
        tsi: u64,
    },
    /// The datagram has no symbol; `close` is the close-session flag (RFC 5651, section 5.1).
    Control {
        close: bool,
    },
    /// The symbol is held from now on. `block_done`: it was the last one that its source block
    /// needed. `object_done`: its object is now ready.
    New {
        toi: u128,
        sbn: u32,
        esi: u8,
        block_done: bool,
        object_done: bool,
    },
    /// The symbol was held already.
    Repeat {
        toi: u128,
        sbn: u32,
        esi: u8,
    },
    /// The source block has all the symbols that it needs.
    Spare {
        toi: u128,
        sbn: u32,
        esi: u8,
    },
    /// The object is held under other transmission information.
    OtiDiffers {
        toi: u128,
    },
    /// The place is held with another symbol; `at` is the first byte that differs.
    SymbolDiffers {
        toi: u128,
        sbn: u32,
        esi: u8,
        at: u16,
    },
    /// The symbol would bring the byte count, `count` so far, above the budget by its `charge`.
    OverBudget {
        toi: u128,
        sbn: u32,
        esi: u8,
        count: u64,
        charge: u64,
    },
    /// The instance of this number is installed from now on.
    Installed {
        number: u32,
    },
}
