//! Texts, written short.
use std::alloc::{AllocError, Global};

/// SHA-256 of `abc` (FIPS 180-4's example).
pub const OF_ABC: &str = "ba7816bf8f01cfea414140de5dae2223b00361a396177a9cb410ff61f20015ad";

/// SHA-256 of nothing, as `sha256sum` tells it.
pub const OF_NOTHING: &str = "e3b0c44298fc1c149afbf4c8996fb92427ae41e4649b934ca495991b7852b855";

/// A text in which `A` stands for the digest of `abc`, `E` for that of nothing, and `/` for the end of a line.
pub fn text_in_full(alloc: Global, short: &str) -> Result<String, AllocError> {
    let mut text = String::new(alloc);
    for letter in short.chars() {
        match letter {
            'A' => text.push_str(OF_ABC)?,
            'E' => text.push_str(OF_NOTHING)?,
            '/' => text.push('\n')?,
            _ => text.push(letter)?,
        }
    }
    Ok(text)
}

/// Puts the lines of so many ports behind a text, from port 1 on: each with its port's number between two words.
pub fn put_lines(text: &mut String, ports: u16, front: &str, back: &str) -> Result<(), AllocError> {
    let alloc = *text.allocator();
    for port in 1..=ports {
        let line = format!(in alloc; "{front}{port}{back}")?;
        text.push_str(line.as_str())?;
    }
    Ok(())
}
