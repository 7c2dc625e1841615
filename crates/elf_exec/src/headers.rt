//! The header and the program headers of an executable.
ghost use Rattle.std.specs.Prelude.{◌≡◌, ◌<◌};
ghost use Rattle.elf_field.specs.Abi.{PN_XNUM};
ghost use Rattle.elf_exec.specs.Executable.{exec_header, program_header};
ghost use Rattle.elf_link_relocate.specs.Linked.{identity_of};

use crate::placed_exec::PlacedExec;
use elf_field::abi::*;
use elf_field::{Ehdr, Phdr};
use elf_image_outline::Entries;
use elf_image_type::identification;
use elf_link_relocate::{Linked, Load, file_size};

// The header of an executable (gABI chapter 4, ELF Header).

/// The header of the executable of relocated bytes that has so many segments.
pub(crate) fn exec_header(linked: &Linked<'_, '_>, count: usize) -> Ehdr
    requires { count < PN_XNUM }
    ensures { result ≡ exec_header (identity_of linked.now.objects) linked.now.map.entry count }
{
    let identity = linked.identity();
    Ehdr {
        e_ident: identification(identity.order, identity.osabi, identity.abi),
        e_type: ET_EXEC,
        e_machine: identity.machine,
        e_version: EV_CURRENT as u32,
        e_entry: linked.map().entry(),
        e_phoff: if count == 0 { 0 } else { EHDR_SIZE },
        e_shoff: 0,
        e_flags: identity.flags,
        e_ehsize: EHDR_SIZE as u16,
        e_phentsize: if count == 0 { 0 } else { PHDR_SIZE as u16 },
        e_phnum: count as u16,
        e_shentsize: 0,
        e_shnum: 0,
        e_shstrndx: 0,
    }
}

// The program header table of an executable, entry by entry (gABI chapter 5, Program Header).

/// The program headers.
#[derive(Drop)]
pub(crate) struct ProgramHeaders<'p, 'l, 'm, 'a> {
    pub(crate) placed: &'p PlacedExec<'l, 'm, 'a>,
}

impl<'p, 'l, 'm, 'a> Entries for ProgramHeaders<'p, 'l, 'm, 'a> {
    ghost use Rattle.elf_exec.specs.Executable.{program_headers};
    ghost use Rattle.elf_link_relocate.specs.Loads.{loads};

    type Entry = Phdr;

    ghost entries = { λ s. let m = s.placed.now.linked.map in program_headers m.page (loads m) s.placed.now.places };

    ghost fit = { λ _. Unit {0} };

    fn count(&self) -> usize {
        self.placed.count()
    }

    fn entry(&self, index: usize) -> Phdr {
        let page = self.placed.linked().map().page();
        program_header(page, self.placed.load(index), self.placed.place(index))
    }
}

fn program_header(page: u64, load: Load, place: u64) -> Phdr
    ensures { result ≡ program_header page load place }
{
    Phdr {
        p_type: PT_LOAD,
        p_flags: load.flags,
        p_offset: if load.no_bits { 0 } else { place },
        p_vaddr: load.address,
        p_paddr: load.address,
        p_filesz: file_size(load),
        p_memsz: load.size,
        p_align: page,
    }
}
