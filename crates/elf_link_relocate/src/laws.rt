//! What the layers above may know of relocated bytes. What is said of a map of the files holds whatever its base, page and entry are
//! (`IsSoundMapButOptions`).
ghost use Rattle.std.specs.Prelude.{◌≡◌, ◌<◌, ℕ, List, None, Option, length};
ghost use Rattle.elf_link_files.specs.declared.fault.Options.{Options};
ghost use Rattle.elf_link_files.specs.declared.site.Site.{Site};
ghost use Rattle.elf_link_files.specs.Rows.{FirstAt};
ghost use Rattle.elf_link_map.specs.LinkMap.{FirstOfLink, IsLinkMap, LinkMapValue, with_options};
ghost use Rattle.elf_link_relocate.specs.Linked.{IsLinked, LinkedValue, IsSoundMapButOptions, IsSoundMap};
ghost use Rattle.elf_link_relocate.specs.Linked.{HasContentAt, HasFieldAt, HaveBytes};
ghost use Rattle.elf_link_relocate.specs.Linked.{IsInMemory, IsInNoMember, IsInOutputAt, IsMemory};
ghost use Rattle.elf_link_relocate.specs.Fields.{applied_entry_rules};
ghost use Rattle.elf_object_type.specs.Object.{ObjectValue};
ghost use Rattle.elf_link_field.specs.declared.rule.RelocRule.{RelocRule};

/// A map of the files for some options is one whatever its base, page and entry are.
pub fn any_options()
    ensures { (fs : List ObjectValue) (m : LinkMapValue) → IsSoundMap fs m → IsSoundMapButOptions fs m }
{}

/// A map of the files is, with the base and page of some options that name no entry symbol, and the entry 0, in place of its own, the map
/// for these, and none of rules 1 to 11 is broken for them: so neither rule 10 nor the value of an entry symbol is asked of it.
pub fn without_entry()
    ensures { (fs : List ObjectValue) (m : LinkMapValue) → IsSoundMapButOptions fs m →
        (opt : Options) × (opt.entry ≡ None) × IsLinkMap opt fs (with_options m opt.base opt.page 0) × FirstOfLink opt fs None }
{}

/// Of rules 12 to 16 some objects, their map and relocation rules have one answer: no other rule and site meets the definition, and it
/// cannot be that no answer does.
pub fn one_relocation_fault()
    ensures one { (fs : List ObjectValue) (m : LinkMapValue) (rules : List RelocRule) (x y : Option (ℕ × Site)) →
        FirstAt (applied_entry_rules fs m rules) x → FirstAt (applied_entry_rules fs m rules) y → x ≡ y }
    ensures some { (fs : List ObjectValue) (m : LinkMapValue) (rules : List RelocRule) →
        ((x : Option (ℕ × Site)) → FirstAt (applied_entry_rules fs m rules) x → ⊥) → ⊥ }
{}

/// In a map of the files, where none of rules 1 to 16 is broken, it can't be that no value is the relocated bytes of the link.
pub fn some_linked()
    ensures { (fs : List ObjectValue) (m : LinkMapValue) (rules : List RelocRule) → IsSoundMapButOptions fs m →
        FirstAt (applied_entry_rules fs m rules) None →
        ((l : LinkedValue) → IsLinked fs m rules l → ⊥) → ⊥ }
{}

/// In a map of the files, where none of rules 1 to 16 is broken, the memory of a link has one byte at each address, or none.
pub fn one_byte()
    ensures { (fs : List ObjectValue) (m : LinkMapValue) (rules : List RelocRule) → IsSoundMapButOptions fs m →
        FirstAt (applied_entry_rules fs m rules) None →
        (x v w : ℕ) → IsMemory fs m rules x v → IsMemory fs m rules x w → v ≡ w }
{}

/// In a map of the files, where none of rules 1 to 16 is broken, each field lies in the content of a section that has an address.
pub fn field_in_content()
    ensures { (fs : List ObjectValue) (m : LinkMapValue) (rules : List RelocRule) → IsSoundMapButOptions fs m →
        FirstAt (applied_entry_rules fs m rules) None →
        (x : ℕ) → HasFieldAt fs m rules x → HasContentAt fs m x }
{}

/// In a map of the files, where none of rules 1 to 16 is broken, memory has bytes in the outputs and from the first common to the end of
/// the last alone.
pub fn memory_in()
    ensures { (fs : List ObjectValue) (m : LinkMapValue) (rules : List RelocRule) → IsSoundMapButOptions fs m →
        FirstAt (applied_entry_rules fs m rules) None →
        (x v : ℕ) → IsMemory fs m rules x v → IsInMemory m x }
{}

/// In a map of the files, where none of rules 1 to 16 is broken, memory has a byte at each address in an output, and at each from the first
/// common to the end of the last.
pub fn some_byte()
    ensures { (fs : List ObjectValue) (m : LinkMapValue) (rules : List RelocRule) → IsSoundMapButOptions fs m →
        FirstAt (applied_entry_rules fs m rules) None →
        (x : ℕ) → IsInMemory m x → (v : ℕ) × IsMemory fs m rules x v }
{}

/// Of relocated bytes too: memory has a byte at each of these addresses.
pub fn memory_there()
    ensures { (fs : List ObjectValue) (m : LinkMapValue) (rules : List RelocRule) (l : LinkedValue) → IsSoundMapButOptions fs m →
        IsLinked fs m rules l →
        (x : ℕ) → IsInMemory m x → (v : ℕ) × IsMemory fs m rules x v }
{}

/// In a map of the files, where none of rules 1 to 16 is broken, the byte at an address in an output is 0 if none of its members has
/// content: in gaps between members, and where these take memory without bits.
pub fn memory_zero()
    ensures { (fs : List ObjectValue) (m : LinkMapValue) (rules : List RelocRule) → IsSoundMapButOptions fs m →
        FirstAt (applied_entry_rules fs m rules) None →
        (x k : ℕ) → k < length m.outputs → IsInOutputAt m k x → IsInNoMember fs m k x → IsMemory fs m rules x 0 }
{}

/// Each byte of memory is below 256, where those of the contents are.
pub fn memory_bytes()
    ensures { (fs : List ObjectValue) (m : LinkMapValue) (rules : List RelocRule) → HaveBytes fs → (x v : ℕ) → IsMemory fs m rules x v →
        v < 256 }
{}
