//! The file of an object onto a writer.
ghost use Rattle.std.specs.Prelude.{◌≡◌};
ghost use Rattle.elf_image_outline.specs.Image.{IsImage};
ghost use Rattle.elf_object_file.specs.ObjectFile.{IsObjectWritten, IsWrittenFile};
ghost use Rattle.elf_object_reader.specs.Denotes.{Denotes};
ghost use Rattle.elf_table_symbols.specs.Sections.{sections_of};

use elf_image_type::Image;
use elf_object_type::Object;
use elf_object_writer::{ObjectWriteFault, write_layout};
use std::alloc::Global;
use std::io::Write;

/// Writes the file of an object, its canonical layout (gABI chapter 4): the header, the contents of the sections in the order of their
/// indexes, each at the least place that its alignment allows, and the section header table; with zeros between. The sections are the
/// object's own and after them `.symtab`, `.symtab_shndx` where a symbol needs it, `.strtab` and `.shstrtab`.
///
/// What is written breaks no rule of images and none of objects, and is read as this object and no other. Two objects have the same file
/// exactly if they are equal.
///
/// [`ObjectWriteFault::TooLong`] comes exactly if the layout would be longer than 2^30 bytes, and [`ObjectWriteFault::OutOfMemory`] only if
/// an allocation fails. Both come before the first byte is written. Any error of the writer, an interruption too, is
/// [`ObjectWriteFault::Io`], and so is a write that takes 0 bytes of a rest that is not empty. Nothing is tried again and nothing is
/// flushed.
///
/// Memory is taken for the string tables and the places of the parts, and 16 KiB, if there are so many, for short contents, which go out
/// together. Longer ones are passed on as they are in the object, and the entries of tables are made as they are written. It takes the time
/// of [`lay_out`](elf_object_layout::lay_out), and is linear in the bytes written.
pub fn write_object<W: Write>(
    alloc: Global,
    object: &Object<'_>,
    writer: &mut W,
) -> Result<(), ObjectWriteFault>
    ensures { IsObjectWritten object.now (W.contents writer.old) (W.contents writer.new) result }
{
    object.prove_rules();
    write_layout(alloc, object, writer)
}

/// Proves that an object's file is read back as the object: `file` is what [`write_object`] wrote, `image` its image, and `read` the object
/// of that. A contract says so for every image and every object; this call makes the checker use it for these. It does nothing.
pub fn prove_read_back(object: &Object<'_>, file: &[u8], image: &Image<'_>, read: &Object<'_>)
    requires written { IsWrittenFile object.now file.now }
    requires image { IsImage image.now file.now }
    requires denoted { Denotes (sections_of image.now) read.now }
    ensures { read.now ≡ object.now }
{}
