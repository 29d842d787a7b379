//! What stands in a file, and what is told of a fault.
use cj_host::SystemFault;
use std::alloc::Global;
use std::fs;

/// Whether the file with this path has this text.
pub fn holds(rt: &HostRuntime, path: &str, text: &str) -> bool {
    match fs::read_to_string(rt, path) {
        Ok(found) => found.as_str() == text,
        Err(_) => false,
    }
}

/// Whether nothing has this path, not even a link that leads nowhere.
pub fn is_free(rt: &HostRuntime, path: &str) -> bool {
    fs::symlink_metadata(rt, path).is_err()
}

/// Whether the fault is told by this line.
pub fn is_told(alloc: Global, fault: Option<&SystemFault>, line: &[u8]) -> bool {
    match fault.map(|fault| fault.line(alloc)) {
        Some(Ok(told)) => told.as_slice() == line,
        _ => false,
    }
}
