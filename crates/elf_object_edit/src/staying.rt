//! Which sections, or symbols, of an object stay, and their new positions.
ghost use Rattle.std.specs.Prelude.{◌≡◌, ◌↔◌, IfOk, IsTrue, get_or, option_map};
ghost use Rattle.elf_object_edit.specs.Without.{AreMovedEnds, ArePositions, IsLeftOut, new_position, stays as stays_of};

use std::alloc::{AllocError, Global};

/// A mark for each section, or for each symbol: whether it stays. With their new positions.
#[derive(Drop)]
pub(crate) struct Staying {
    /// The marks.
    pub(crate) marks: Vec<bool>,
    /// The new position of each, and a last one for any that is not there.
    pub(crate) positions: Vec<usize>,
    ghost own_positions: { ArePositions marks.items positions.items },
}

/// Whether the one at position `p` is there, and stays.
pub(crate) fn stays(marks: &[bool], p: usize) -> bool
    ensures { result ≡ stays_of marks.now p }
{
    match marks.get(p) {
        Some(mark) => *mark,
        None => false,
    }
}

/// The new position of each, and a last one for any that is not there.
fn positions(alloc: Global, marks: &[bool]) -> Result<Vec<usize>, AllocError>
    ensures { IfOk result (λ positions. ArePositions marks.now positions.items) }
{
    let mut positions = Vec::new(alloc);
    let mut kept = 0;
    for i in 0..marks.len() {
        positions.push(kept)?;
        if stays(marks, i) {
            kept += 1;
        }
    }
    positions.push(kept)?;
    Ok(positions)
}

/// Where the name at position `i` ends, 0 if that is not known.
fn end_at(ends: &[u32], i: usize) -> u32
    ensures { result ≡ get_or ends.now i 0 }
{
    match ends.get(i) {
        Some(end) => *end,
        None => 0,
    }
}

impl Staying {
    /// What stays by these marks.
    pub(crate) fn new(alloc: Global, marks: Vec<bool>) -> Result<Staying, AllocError>
        ensures { IfOk result (λ staying. staying.marks.items ≡ marks.items) }
    {
        let positions = positions(alloc, &marks)?;
        Ok(Staying { marks, positions })
    }

    /// Whether the one at position `p` is there, and stays.
    pub(crate) fn stays(&self, p: usize) -> bool
        ensures { result ≡ stays_of self.now.marks.items p }
    {
        stays(&self.marks, p)
    }

    /// Whether what is named does not stay.
    pub(crate) fn is_left_out(&self, named: Option<usize>) -> bool
        ensures { IsTrue result ↔ IsLeftOut self.now.marks.items named }
    {
        match named {
            Some(p) => !self.stays(p),
            None => false,
        }
    }

    /// The new position of the one at position `p`.
    pub(crate) fn position(&self, p: usize) -> usize
        ensures { result ≡ new_position self.now.marks.items p }
    {
        self.positions[p.min(self.marks.len())]
    }

    /// Where names end, of those that stay; none, if that is not known of any.
    pub(crate) fn ends(&self, alloc: Global, ends: &[u32]) -> Result<Vec<u32>, AllocError>
        ensures { IfOk result (λ moved. AreMovedEnds self.now.marks.items ends.now moved.items) }
    {
        let mut moved = Vec::new(alloc);
        if ends.is_empty() {
            return Ok(moved);
        }
        for i in 0..self.marks.len() {
            if self.stays(i) {
                moved.push(end_at(ends, i))?;
            }
        }
        Ok(moved)
    }

    /// The new position of what is named.
    pub(crate) fn reference(&self, named: Option<usize>) -> Option<usize>
        ensures { result ≡ option_map (new_position self.now.marks.items) named }
    {
        match named {
            Some(p) => Some(self.position(p)),
            None => None,
        }
    }
}
