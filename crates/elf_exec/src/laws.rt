//! What the layers above may know of an executable.
ghost use Rattle.std.specs.Prelude.{◌≡◌, ℕ, List, None};
ghost use Rattle.elf_link_files.specs.Rows.{FirstAt};
ghost use Rattle.elf_link_map.specs.LinkMap.{LinkMapValue};
ghost use Rattle.elf_link_field.specs.declared.rule.RelocRule.{RelocRule};
ghost use Rattle.elf_link_relocate.specs.Linked.{LinkedValue, IsSoundMap, IsSoundLinked};
ghost use Rattle.elf_link_relocate.specs.Fields.{applied_entry_rules};
ghost use Rattle.elf_object_type.specs.Object.{ObjectValue};
ghost use Rattle.elf_exec.specs.Executable.{ExecLaid, ExecFits, LoadsLink, LoadsLinkOf, IsMemoryOf, IsSoundLink};
ghost use Rattle.elf_image_outline.specs.Image.{IsImage};
ghost use Rattle.elf_image_type.specs.ImageView.{LoadsFirst};

use elf_image_type::Image;
use elf_link_field::RelocRule;
use elf_link_files::Options;
use elf_object_type::Object;

/// If no rule of the link is broken for objects, their map and relocation rules, wherever they came from, their executable is an image. Its
/// entry is the value of the entry symbol, or 0 if none is named. Its loadable segments give an address a byte exactly if the memory of the
/// link has that byte there. It is their only executable.
pub fn executable()
    ensures { (fs : List ObjectValue) (m : LinkMapValue) (rules : List RelocRule) (b : List ℕ) →
        IsSoundLink fs m rules → ExecFits fs m rules b → LoadsLink fs m rules b }
{}

/// Relocated bytes have an executable, however long it is.
pub fn some_exec()
    ensures { (l : LinkedValue) → IsSoundLinked l → (b : List ℕ) × ExecLaid l.objects l.map l.rules b }
{}

/// Some objects, their link map and relocation rules have at most one executable: no second list of bytes meets the definition.
pub fn one_exec()
    ensures { (fs : List ObjectValue) (m : LinkMapValue) (rules : List RelocRule) (a b : List ℕ) → IsSoundMap fs m →
        FirstAt (applied_entry_rules fs m rules) None →
        ExecLaid fs m rules a → ExecLaid fs m rules b → a ≡ b }
{}

/// Proves that what [`load`](Image::load) found at an address of an executable's image is the byte that the memory of the link has there:
/// `file` is the executable of these objects by these options, `image` its image. A contract says so for every image and address; this call
/// makes the checker use it for these. It does nothing.
pub fn prove_loaded(
    options: &Options<'_>,
    objects: &[Object<'_>],
    rules: &[RelocRule],
    file: &[u8],
    image: &Image<'_>,
    address: u64,
    found: Option<u8>,
)
    requires executable { LoadsLinkOf options.now objects.now rules.now file.now }
    requires image { IsImage image.now file.now }
    requires found { (b : List ℕ) × IsImage image.now b × LoadsFirst b image.now.segments address found }
    ensures { IsMemoryOf options.now objects.now rules.now address found }
{}
