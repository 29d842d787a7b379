use std::alloc::{AllocError, Global};
use std::io;

/// A file that could not be listed, read or written, and the system's reason.
#[derive(Drop)]
pub struct SystemFault {
    /// The path from where the program runs, or what a standard stream is called.
    file: String,
    reason: io::Error,
}

impl SystemFault {
    /// None where there is no memory for the name.
    pub fn of(alloc: Global, file: &str, reason: io::Error) -> Option<SystemFault> {
        let file = String::from_str(alloc, file).ok()?;
        Some(SystemFault { file, reason })
    }

    /// The line for standard error that names both, with its end. A byte that cannot be printed is a `?`.
    pub fn line(&self, alloc: Global) -> Result<Vec<u8>, AllocError> {
        let text = format!(in alloc; "conj: {}: {}", self.file, self.reason)?;
        let mut line = text.into_bytes();
        for byte in line.iter_mut() {
            if byte.is_ascii_control() {
                *byte = b'?';
            }
        }
        line.push(b'\n')?;
        Ok(line)
    }
}
