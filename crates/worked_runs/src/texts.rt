//! Texts of parts.

use std::alloc::{AllocError, Global};

/// The parts, one after another.
pub fn joined(alloc: Global, parts: &[&str]) -> Result<String, AllocError> {
    let mut text = String::new(alloc);
    push_parts(&mut text, parts)?;
    Ok(text)
}

/// Adds the parts, one after another.
pub fn push_parts(text: &mut String, parts: &[&str]) -> Result<(), AllocError> {
    for part in parts {
        text.push_str(part)?;
    }
    Ok(())
}
