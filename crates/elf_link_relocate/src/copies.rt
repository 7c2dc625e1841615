//! Copies of the live sections with bits.
ghost use Rattle.std.specs.Prelude.{◌≡◌, ◌<◌, IfOk, length, map as map_list, ◌+◌, [], get_or};
ghost use Rattle.elf_link_files.specs.Files.{object_at};
ghost use Rattle.elf_link_relocate.specs.Linked.{IsSectionOf};
ghost use Rattle.elf_link_relocate.specs.Passes.{AreAllCopies, AreCopies, HasRoom, HaveCopies, IsCopy, IsValidatedField, IsPatchedIn};
ghost use Rattle.elf_link_relocate.specs.Passes.{IsPatchedOrBroken, copies_view, copy_view};
ghost use Rattle.elf_link_field.specs.Field.{size_of};

use crate::collecting::is_live;
use crate::field::Validated;
use crate::values::Linking;
use elf_field::Order;
use elf_link_field::{Width, patch, patched_field};
use elf_link_map::files::{prove_rules, section_count, section_of};
use elf_object_type::Body;
use std::alloc::{AllocError, Global};

/// For each section of each file the copy of its bytes; `None` if it is not live or has no bits.
pub(crate) type Copies = Vec<Vec<Option<Vec<u8>>>>;

/// A copy of a section's bytes, where it is live and has bits.
fn copy_of(
    alloc: Global,
    linking: &Linking<'_, '_>,
    file: usize,
    section: usize,
) -> Result<Option<Vec<u8>>, AllocError>
    requires { IsSectionOf linking.now.objects file section }
    ensures { IfOk result (λ copy. IsCopy linking.now.objects file section (copy_view copy)) }
{
    if !is_live(linking, file, section) {
        return Ok(None);
    }
    match &section_of(linking.objects, file, section).body {
        Body::Bits(_, content) => Ok(Some(content.to_vec(alloc)?)),
        _ => Ok(None),
    }
}

/// The copies of a file's sections.
fn file_copies(
    alloc: Global,
    linking: &Linking<'_, '_>,
    file: usize,
) -> Result<Vec<Option<Vec<u8>>>, AllocError>
    requires { file < length linking.now.objects }
    ensures { IfOk result
        (λ row. AreCopies linking.now.objects file (length (object_at linking.now.objects file).sections) (map_list copy_view row.items)) }
{
    let objects = linking.objects;
    let mut row = Vec::new(alloc);
    for section in 0..section_count(&objects[file]) {
        row.push(copy_of(alloc, linking, file, section)?)?;
    }
    Ok(row)
}

/// The copies of all live sections with bits.
pub(crate) fn all_copies(alloc: Global, linking: &Linking<'_, '_>) -> Result<Copies, AllocError>
    ensures { IfOk result (λ rows. AreAllCopies linking.now.objects (length linking.now.objects) (copies_view rows.items)) }
{
    let mut rows = Vec::new(alloc);
    for file in 0..linking.objects.len() {
        rows.push(file_copies(alloc, linking, file)?)?;
    }
    Ok(rows)
}

// Numbers in the fields of the copies.

/// Puts a number into the field of this width at an offset of a section's copy.
fn patch_in(
    order: Order,
    copies: &mut Copies,
    file: usize,
    section: usize,
    offset: usize,
    width: Width,
    number: i128,
)
    requires file { file < length copies.old.items }
    requires section { section < length (get_or (copies_view copies.old.items) file []) }
    requires room { HasRoom (copies_view copies.old.items) file section offset (size_of width) }
    ensures { IsPatchedIn order (copies_view copies.old.items) file section offset (size_of width) number (copies_view copies.new.items) }
{
    match &mut copies[file][section] {
        Some(copy) => patch(order, copy, offset, width, number),
        None => {}
    }
}

/// Puts the number of a field into it, where it has one and ends within its target.
pub(crate) fn patch_field(linking: &Linking<'_, '_>, validated: Validated, copies: &mut Copies)
    requires validated { IsValidatedField linking.now.objects linking.now.map linking.now.rules validated.field.site validated }
    requires copies { HaveCopies linking.now.objects (copies_view copies.old.items) }
    ensures { IsPatchedOrBroken linking.now.objects validated (copies_view copies.old.items) (copies_view copies.new.items) }
{
    if validated.unplaced || validated.out_of_range {
        return;
    }
    let field = validated.field;
    patched_field();
    let objects = linking.objects;
    prove_rules(objects, field.site.file);
    patch_in(
        objects[field.site.file].order(),
        copies,
        field.site.file,
        field.target,
        field.offset,
        field.rule.width,
        field.number,
    );
}
