//! What is said of a text.
use overlay_config::{changes_of, settings_of};
use std::alloc::{AllocError, Global};

/// What a text is to be.
#[derive(Clone, Copy)]
pub(crate) enum Kind {
    Settings,
    Changes,
}

/// The fault of a text of this kind; "ok" without one.
pub(crate) fn said_of(alloc: Global, kind: Kind, text: &[u8]) -> Result<String, AllocError> {
    let fault = match kind {
        Kind::Settings => settings_of(alloc, text).err(),
        Kind::Changes => changes_of(alloc, text).err(),
    };
    let line = match fault {
        Some(fault) => fault.to_string(alloc)?,
        None => String::from_str(alloc, "ok")?,
    };
    Ok(line)
}
