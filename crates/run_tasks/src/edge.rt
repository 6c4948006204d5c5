//! What the program is handed of the outside.

/// The outside of a run: where datagrams come from and go to, the files that are sent, the shelf
/// that instances are installed on, and the text that is written.
#[derive(Drop)]
pub struct Edge<D, E, F, S, T> {
    pub datagrams: D,
    pub emit: E,
    pub files: F,
    pub shelf: S,
    pub text: T,
}
