//! Room on the stack, taken before anything is read.

use std::alloc::{AllocError, Global};

/// How many pages of stack a text takes whose lists nest as deep as they may, with some to spare.
const PAGES: u32 = 1_500;

/// The bytes of a page, and a little less, so that each call touches the page below the last one.
const PAGE: usize = 4000;

/// Whether there is room for that many pages: a stack that can't grow ends the program by a signal,
/// but an allocation is refused.
fn try_room(alloc: Global) -> Result<(), AllocError> {
    let mut room = Vec::with_capacity(alloc, PAGES as usize * 4096)?;
    room.push(0u8)?;
    Ok(())
}

/// Touches the pages, one a call. What it answers means nothing.
fn touch(pages: u32, value: u8) -> u8 {
    let mut page = [value; PAGE];
    if pages > 0 {
        let below = touch(pages - 1, value.wrapping_mul(5).wrapping_add(1));
        page[usize::from(below)] = !value;
        return page[usize::from(value)].wrapping_add(below);
    }
    page[usize::from(value)]
}

/// Takes the stack that the deepest text wants, once and for all, since a stack that has grown keeps
/// its room. So a want of it shows here, as want of memory, and not in the midst of a text.
pub fn take_stack(alloc: Global) -> Result<(), AllocError> {
    try_room(alloc)?;
    let touched = touch(PAGES, 3);
    // The answer is used, so that no compiler leaves the touching out.
    let mut used: Vec<u8> = Vec::with_capacity(alloc, usize::from(touched))?;
    used.push(touched)?;
    Ok(())
}
