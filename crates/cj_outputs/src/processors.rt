use std::thread::{Threads, available_parallelism};

/// How many workers share the work of a command that is told of none: as many as there are processors, at most 16, and one where the
/// system does not say. What is found is the same, however many there are.
pub fn processors<R: Threads>(rt: &R) -> u32 {
    match available_parallelism(rt) {
        Ok(count) => count.get().min(16) as u32,
        Err(_) => 1,
    }
}
