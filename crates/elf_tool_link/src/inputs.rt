//! Files that are read one after the other.
ghost use Rattle.std.specs.Prelude.{IfErr, IfOk, map};
ghost use Rattle.elf_tool_link.specs.Inputs.{AreRead, IsReadingFault};

use elf_tool_check::{ToolFault, read_input};
use std::alloc::Global;
use std::io::Read;

/// All bytes of each of several files, as [`read_input`] reads them, one after the other: the next one is not begun before all of the
/// one before it is read. The first fault ends it.
pub fn read_inputs<R: Read>(alloc: Global, readers: &mut [R]) -> Result<Vec<Vec<u8>>, ToolFault>
    ensures ok { IfOk result (λ files.
        AreRead (map R.remaining readers.old) (map R.remaining readers.new) (map (λ f. f.items) files.items)) }
    ensures fault { IfErr result (IsReadingFault (map R.remaining readers.old) (map R.remaining readers.new)) }
{
    let mut files = Vec::new(alloc);
    for i in 0..readers.len() {
        let mut file = Vec::new(alloc);
        read_input(&mut readers[i], &mut file)?;
        let Ok(()) = files.push(file) else {
            return Err(ToolFault::OutOfMemory);
        };
    }
    Ok(files)
}
