//! What is printed of the files that a capture was split into.
use crate::capture_split::Lanes;
use crate::pass::number_at;
use crate::split_file::SplitFile;
use program_files::OneLine;
use std::alloc::{AllocError, Global};
use std::fmt::Write;
use std::io;

/// A line for each file: the interface's number, the file's name, and the interface's name where it is a text; below it, begun
/// by two spaces, how many of its packets were left out since they are outbound, and its fault, or that the capture ends within
/// a block, where it is so.
pub fn listing<F: io::Write + Drop>(
    alloc: Global,
    files: &[SplitFile<F>],
    lanes: &Lanes,
    is_cut: bool,
) -> Result<String, AllocError> {
    let mut text = String::new(alloc);
    for (index, file) in files.iter().enumerate() {
        let name = file.name.as_str();
        write!(text, "{index} {name}")?;
        if let Ok(interface) = str::from_utf8(file.interface.as_slice()) {
            if !interface.is_empty() {
                let interface = OneLine(interface);
                write!(text, " {interface}")?;
            }
        }
        text.push('\n')?;
        let number = number_at(index);
        let left_out = lanes.left_out_of(number);
        if left_out > 0 {
            write!(text, "  {left_out} outbound packets left out\n")?;
        }
        match lanes.fault_of(number) {
            Some(fault) => write!(text, "  {fault}\n")?,
            None if is_cut => text.push_str("  ends within a block\n")?,
            None => {}
        }
    }
    Ok(text)
}
