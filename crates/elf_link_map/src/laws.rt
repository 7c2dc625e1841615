//! What the layers above may know of a link map.
ghost use Rattle.std.specs.Prelude.{◌≡◌, ℕ, List, None, Option};
ghost use Rattle.elf_link_files.specs.declared.fault.Options.{Options};
ghost use Rattle.elf_link_files.specs.declared.site.Site.{Site};
ghost use Rattle.elf_link_files.specs.Rows.{FirstAt};
ghost use Rattle.elf_link_names.specs.Binds.{input_rules};
ghost use Rattle.elf_link_map.specs.Standing.{ArePlacedApart, AreObjects, ArePaged, ObjectsFit, OutputsStand};
ghost use Rattle.elf_link_map.specs.LinkMap.{FirstOfLink, IsLinkMap, LinkMapValue};
ghost use Rattle.elf_object_type.specs.Object.{ObjectValue};

use elf_object_type::Object;

/// In the link map of some objects a section has an address exactly if it is live, the commons are after all sections, each of these
/// parts ends below 2^64, and no address lies in two of them.
pub fn parts_apart()
    ensures { (opt : Options) (fs : List ObjectValue) (m : LinkMapValue) → IsLinkMap opt fs m → ArePlacedApart fs m }
{}

/// In the link map of some objects each output has members: it begins where the first of them does, they are in it one after the other, and
/// it ends where the last one ends. Each section with an address is a member of one. Outputs ascend, each ends where the next one and the
/// commons begin, or before, and below 2^64.
pub fn outputs_stand()
    ensures { (opt : Options) (fs : List ObjectValue) (m : LinkMapValue) → IsLinkMap opt fs m → OutputsStand fs m }
{}

/// Where none of rules 1 to 11 is broken, the page is a power of two, and each output and the first common begin at a multiple of it.
pub fn are_paged()
    ensures { (opt : Options) (fs : List ObjectValue) (m : LinkMapValue) → IsLinkMap opt fs m → FirstOfLink opt fs None → AreObjects fs →
        ArePaged m }
{}

/// Proves that each of these objects breaks none of the object rules and fits the fields of a file: a contract does not see the invariant
/// of an object in a list. It does nothing.
pub fn prove_objects(objects: &[Object<'_>])
    ensures kept { AreObjects objects.now }
    ensures fit { ObjectsFit objects.now }
{
    for file in 0..objects.len() {
        objects[file].prove_rules();
    }
}

/// Some objects and options have one answer: that no rule of the link is broken, or the first one that is, at its first site. At most one
/// meets the definition, and it can't be that none is: of rules 1 to 9, which are asked of the objects alone, and of all eleven.
pub fn one_link_fault()
    ensures some_input { (opt : Options) (fs : List ObjectValue) → ((x : Option (ℕ × Site)) → FirstAt (input_rules opt fs) x → ⊥) → ⊥ }
    ensures some { (opt : Options) (fs : List ObjectValue) → ((x : Option (ℕ × Site)) → FirstOfLink opt fs x → ⊥) → ⊥ }
    ensures one { (opt : Options) (fs : List ObjectValue) (a b : Option (ℕ × Site)) → FirstOfLink opt fs a → FirstOfLink opt fs b → a ≡ b }
{}

/// Some objects and options have at most one link map: no second value meets the definition. Where no rule of the link is broken it can't
/// be that none is.
pub fn one_link_map()
    ensures some { (opt : Options) (fs : List ObjectValue) → FirstOfLink opt fs None → ((m : LinkMapValue) → IsLinkMap opt fs m → ⊥) → ⊥ }
    ensures one { (opt : Options) (fs : List ObjectValue) (m n : LinkMapValue) → IsLinkMap opt fs m → IsLinkMap opt fs n → m ≡ n }
{}
