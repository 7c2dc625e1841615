//! The number of each rule of the link: those of the map, 1 to 11, and those of relocations, 12 to 16.
pub use elf_link_files::rules as map;
pub use elf_link_relocate::rules as relocation;
