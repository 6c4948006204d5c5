//! What tells files of a session apart.

/// A file by its location, its type, and the place of its body among the distinct bodies.
#[derive(Clone, Copy, PartialEq, Eq, Hash, Drop)]
pub(crate) struct FileKey<'a> {
    pub(crate) location: &'a str,
    pub(crate) kind: Option<&'a str>,
    pub(crate) body: usize,
}
