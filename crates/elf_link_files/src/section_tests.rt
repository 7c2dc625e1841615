//! What a section is to the link.
ghost use Rattle.std.specs.Prelude.{◌≡◌, ◌↔◌, IsTrue, MatchOption};
ghost use Rattle.elf_link_files.specs.Files.{IsComdat, is_comdat as is_comdat_of, signature, signature_position as signature_position_of};
ghost use Rattle.elf_link_files.specs.Files.{IsSectionIn, section_with, Live, is_loadable as is_loadable_of};
ghost use Rattle.elf_link_files.specs.FileRules.{HasEmptySignature, IsLiveWith};
ghost use Rattle.elf_object_type.specs.ObjectView.{body_value, section_value};

use crate::files::{prove_rules, section_of, symbol_of};
use crate::inputs::{InputSection, SectionId, SymbolId};
use elf_field::abi::*;
use elf_object_type::{Body, Object, Section};

/// Whether a body is bits, or takes memory without them.
fn is_loadable(body: &Body<'_>) -> bool
    ensures { result ≡ is_loadable_of (body_value body.now) }
{
    matches!(body, Body::Bits(..) | Body::NoBits(_))
}

/// Whether a body is a COMDAT group.
fn is_comdat(body: &Body<'_>) -> bool
    ensures { result ≡ is_comdat_of (body_value body.now) }
{
    match body {
        Body::Group { comdat, .. } => *comdat,
        _ => false,
    }
}

/// The position of a group's signature symbol; 0 for another body.
pub(crate) fn signature_position(body: &Body<'_>) -> usize
    ensures { result ≡ signature_position_of (body_value body.now) }
{
    match body {
        Body::Group { signature, .. } => *signature,
        _ => 0,
    }
}

/// The signature of a section that is a COMDAT group; None for another.
pub(crate) fn comdat_signature<'a>(objects: &[Object<'a>], id: SectionId) -> Option<&'a [u8]>
    requires { IsSectionIn objects.now id }
    ensures { MatchOption result (¬ IsComdat objects.now id.file id.index)
        (λ name. IsComdat objects.now id.file id.index × (signature objects.now id.file id.index ≡ name.now)) }
{
    let section = section_of(objects, id.file, id.index);
    if !is_comdat(&section.body) {
        return None;
    }
    prove_rules(objects, id.file);
    let signature = SymbolId {
        file: id.file,
        index: signature_position(&section.body),
    };
    Some(symbol_of(objects, signature).name)
}

impl<'i, 'l, 'a> InputSection<'i, 'l, 'a> {
    /// What its file says of it.
    pub fn section(&self) -> &'l Section<'a>
        ensures { section_value result.now ≡ section_with self.now.inputs.now self.now.id }
    {
        section_of(self.inputs.objects(), self.id.file, self.id.index)
    }

    /// Whether it is live.
    pub fn is_live(&self) -> bool
        ensures { IsTrue result ↔ Live self.now.inputs.now self.now.id.file self.now.id.index }
    {
        let section = self.section();
        let alloc = section.flags & SHF_ALLOC != 0;
        alloc && is_loadable(&section.body) && !self.inputs.is_discarded(self.id)
    }

    /// Rules 3 and 4: whether it is live and has the flag.
    pub(crate) fn is_live_with(&self, flag: u64) -> bool
        ensures { IsTrue result ↔ IsLiveWith flag self.now.inputs.now self.now.id.file self.now.id.index }
    {
        let flagged = self.section().flags & flag != 0;
        flagged && self.is_live()
    }

    /// Rule 5: whether it is a COMDAT group with an empty signature.
    pub(crate) fn has_empty_signature(&self) -> bool
        ensures { IsTrue result ↔ HasEmptySignature self.now.inputs.now self.now.id.file self.now.id.index }
    {
        match comdat_signature(self.inputs.objects(), self.id) {
            Some(name) => name.is_empty(),
            None => false,
        }
    }
}
