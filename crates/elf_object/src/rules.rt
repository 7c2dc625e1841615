//! The number of each rule of objects: those of its parts, 1 to 9, and those of the file that it is read from, 70 to 79.
pub use elf_object_reader::rules as file;
pub use elf_object_type::rules as parts;
