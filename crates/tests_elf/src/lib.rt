//! Tests of what the library shows: each item of each public crate, and definitions, named through `elf`; the texts of faults; and the
//! object without sections and symbols, made, written, validated and read.
#![tactic(auto)]

/// Records.
pub mod field {
    pub use elf::field::{Dyn, Ehdr, Order, Phdr, Record, Rel, Rela, Shdr, Sym};
}

/// Extents and places.
pub mod extent {
    pub use elf::extent::{
        Counted, Extent, OutOfMemory, Piece, PlaceFault, Row, SortedExtents, account, first_double,
        next_place, place, sweep,
    };
}

/// Images.
pub mod image {
    pub use elf::image::{
        Bytes, CopyFault, Failed, Failures, Fault, Image, JoinFault, Joined, NoSection, Opened,
        Outline, Owner, Part, Patched, ReplaceFault, Seeking, ShortReads, Source, Stream,
        WriteFault, copy_image, parse, read_to_end, resume, rules, scan, verdict, write,
    };
}

/// Tables.
pub mod table {
    pub use elf::table::{
        Dynamic, DynamicIter, Group, GroupIter, Hash, HashFault, HashIter, Note, NoteIter, Notes,
        Place, RelocIter, Relocation, Relocs, Strings, Symbol, SymbolIter, Symbols, build_hash,
        elf_hash, rules,
    };
}

/// Objects.
pub mod object {
    pub use elf::object::{
        Body, Info, Layout, LayoutFault, Object, ObjectFault, ObjectParts, ObjectWriteFault, Place,
        Reference, Relocation, Section, Shared, Symbol, WithoutFault, lay_out, object_of,
        prove_read_back, rules, shared_table, without, write_object,
    };
}

/// The link.
pub mod link {
    pub use elf::link::{
        Binding, Common, Form, Identity, LinkFault, LinkMap, Linked, Member, Named, Options,
        Output, Range, RelocRule, Width, laws, map, relocate, rules,
    };
}

/// The executable.
pub mod exec {
    pub use elf::exec::{ExecFault, Load, prove_loaded, write_exec};
}

/// The program.
pub mod tool {
    pub use elf::tool::{
        Ended, Form, OpenFault, Opener, Options, Range, Refusal, RelocRule, Request, RulesFault,
        Status, ToolFault, Verdict, Width, WordsFault, check, check_source, map, read_rules,
        read_words, rewrite, run, run_to_end, show,
    };
}

#[cfg(test)]
mod asserts;
pub mod clauses;
#[cfg(test)]
mod empty_object;
#[cfg(test)]
mod fault_texts;
#[cfg(test)]
mod own;
