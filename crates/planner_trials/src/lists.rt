// Lists of entries to plan.
use crate::trial::Trial;
use std::alloc::{AllocError, Global};

// Entries whose priorities are the digits of a number in a base, as many as asked for.
pub(crate) fn digits<E: Trial>(
    heap: Global,
    mut code: u32,
    base: u32,
    n: usize,
) -> Result<Vec<E>, AllocError> {
    let mut list = Vec::new(heap);
    for _ in 0..n {
        let digit = code.checked_rem(base).unwrap_or(0);
        list.push(E::of((digit % 65_536) as u16))?;
        code = code.checked_div(base).unwrap_or(0);
    }
    Ok(list)
}

// Generated entries with priorities below a limit; small limits make many ties.
pub(crate) fn generated<E: Trial>(
    heap: Global,
    seed: u32,
    n: usize,
    limit: u32,
) -> Result<Vec<E>, AllocError> {
    let mut list = Vec::new(heap);
    let mut state = seed;
    for _ in 0..n {
        state = state.wrapping_mul(1_103_515_245).wrapping_add(12_345);
        let drawn = (state / 65_536).checked_rem(limit).unwrap_or(0);
        list.push(E::of((drawn % 65_536) as u16))?;
    }
    Ok(list)
}
