use st_memory::Spaces;
use std::alloc::{AllocError, Global};

/// The sum of the numbers of spaces that were copied from one, as fork(2) does, each of which is given up at once.
pub fn copies(alloc: Global, count: u64) -> Result<u64, AllocError> {
    let mut spaces = Spaces::new(alloc);
    let first = spaces.make(alloc)?;
    let mut sum: u64 = 0;
    for _ in 0..count {
        let space = spaces.copy_space(first)?;
        sum = sum.wrapping_add(u64::from(space));
        spaces.unmake(space);
    }
    Ok(sum)
}
