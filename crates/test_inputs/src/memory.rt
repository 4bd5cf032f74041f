//! Requests for memory, for programs that run while one of a fixed number is refused.
use std::alloc::Global;

/// The greatest number of a request that is refused.
const MOST: u16 = 500;

/// Makes so many requests for memory.
pub fn request(alloc: Global, count: u16) {
    for _ in 0..count {
        let _ = Vec::<u8>::with_capacity(alloc, 1);
    }
}

/// How many requests for memory are granted before one is refused: 500 where none is.
pub fn granted(alloc: Global) -> u16 {
    for count in 0..MOST {
        if Vec::<u8>::with_capacity(alloc, 1).is_err() {
            return count;
        }
    }
    MOST
}
