//! The sections that are discarded: members of each COMDAT group whose signature an earlier one has (gABI chapter 4, Section Groups).
ghost use Rattle.std.specs.Prelude.{◌≡◌, ◌<◌, ◌+◌, [], IfOk, OnOk, get_or, length, map};
ghost use Rattle.std.specs.List.{All};
ghost use Rattle.elf_link_files.specs.Files.{AreDiscardMarks, AreMembersMarked, IsSectionIn, object_at};
ghost use Rattle.elf_link_files.specs.Discarded.{AreMarksOf, AreUnmarked, IsGroupMarked, comdat_groups};
ghost use Rattle.elf_link_files.specs.Discarded.{signature_site as signature_site_of, signatures_of};
ghost use Rattle.elf_link_files.specs.Rows.{Lists, UpTo};
ghost use Rattle.elf_link_files.specs.SameNames.{IsNamedIn};
ghost use Rattle.elf_link_files.specs.declared.same_names.Named.TheVariants.{Symbol};
ghost use Rattle.elf_object_strings.specs.StringTable.{AreEqualTo};
ghost use Rattle.elf_object_type.specs.Object.{members_of, section_at as section};

use crate::files::{prove_rules, section_at, section_count, section_of};
use crate::inputs::SectionId;
use crate::same_names::{Named, first_of_names};
use crate::section_tests::{comdat_signature, signature_position};
use crate::site::{Site, site_in};
use elf_object_type::{Body, Object};
use std::alloc::{AllocError, Global};

// The COMDAT groups of all files.

/// Adds a section to the groups before it, where it is a COMDAT group.
fn push_group(
    objects: &[Object<'_>],
    id: SectionId,
    groups: &mut Vec<Site>,
) -> Result<(), AllocError>
    requires section { IsSectionIn objects.now id }
    requires before { Lists (UpTo (comdat_groups objects.now) id.file id.index) groups.old.items }
    ensures { OnOk result (Lists (UpTo (comdat_groups objects.now) id.file (id.index + 1)) groups.new.items) }
{
    let Some(_) = comdat_signature(objects, id) else {
        return Ok(());
    };
    groups.push(site_in(id.file, id.index))?;
    Ok(())
}

/// Adds those of a file to those of the files before.
fn push_groups(
    objects: &[Object<'_>],
    file: usize,
    groups: &mut Vec<Site>,
) -> Result<(), AllocError>
    requires file { file < length objects.now }
    requires before { Lists (UpTo (comdat_groups objects.now) file 0) groups.old.items }
    ensures { OnOk result (Lists (UpTo (comdat_groups objects.now) (file + 1) 0) groups.new.items) }
{
    for index in 0..section_count(&objects[file]) {
        push_group(objects, SectionId { file, index }, groups)?;
    }
    Ok(())
}

/// All of them, in order. Fails only when out of memory.
fn groups_of(alloc: Global, objects: &[Object<'_>]) -> Result<Vec<Site>, AllocError>
    ensures { IfOk result (λ groups. Lists (comdat_groups objects.now) groups.items) }
{
    let mut groups = Vec::new(alloc);
    for file in 0..objects.len() {
        push_groups(objects, file, &mut groups)?;
    }
    Ok(groups)
}

/// The site of the signature symbol of a group.
fn signature_site(objects: &[Object<'_>], group: Site) -> Site
    requires { comdat_groups objects.now group }
    ensures symbol { result ≡ signature_site_of objects.now group }
    ensures there { IsNamedIn objects.now Symbol result }
{
    prove_rules(objects, group.file);
    let body = &section_of(objects, group.file, group.index).body;
    site_in(group.file, signature_position(body))
}

/// The sites of the signature symbols of these groups. Fails only when out of memory.
fn signature_sites(
    alloc: Global,
    objects: &[Object<'_>],
    groups: &[Site],
) -> Result<Vec<Site>, AllocError>
    requires { Lists (comdat_groups objects.now) groups.now }
    ensures symbols { IfOk result (λ sites. sites.items ≡ map (signature_site_of objects.now) groups.now) }
    ensures there { IfOk result (λ sites. All (IsNamedIn objects.now Symbol) sites.items) }
{
    let mut sites = Vec::with_capacity(alloc, groups.len())?;
    for k in 0..groups.len() {
        sites.push(signature_site(objects, groups[k]))?;
    }
    Ok(sites)
}

/// For each of these groups the position among them of the first one that has the same signature. Fails only when out of memory.
fn first_of_signatures(
    alloc: Global,
    objects: &[Object<'_>],
    groups: &[Site],
) -> Result<Vec<usize>, AllocError>
    requires { Lists (comdat_groups objects.now) groups.now }
    ensures { IfOk result (λ firsts. AreEqualTo (signatures_of objects.now groups.now) firsts.items) }
{
    let sites = signature_sites(alloc, objects, groups)?;
    first_of_names(alloc, objects, Named::Symbol, &sites)
}

// The marks.

/// Marks the members of a group.
fn mark_members(object: &Object<'_>, index: usize, marks: &mut Vec<bool>)
    requires section { index < length object.now.sections }
    requires marks { length marks.old.items ≡ length object.now.sections }
    ensures { AreMembersMarked marks.old.items (members_of (section object.now index).body)
        (length (members_of (section object.now index).body)) marks.new.items }
{
    object.prove_rules();
    let Body::Group { members, .. } = &section_at(object, index).body else {
        return;
    };
    for member in members {
        marks[*member] = true;
    }
}

/// For each section of each file no mark.
fn no_marks(alloc: Global, objects: &[Object<'_>]) -> Result<Vec<Vec<bool>>, AllocError>
    ensures { IfOk result (λ marks. AreUnmarked objects.now (length objects.now) (map (λ row. row.items) marks.items)) }
{
    let mut marks = Vec::with_capacity(alloc, objects.len())?;
    for file in 0..objects.len() {
        marks.push(vec![in alloc; false; section_count(&objects[file])]?)?;
    }
    Ok(marks)
}

/// Marks the members of a group among the marks of all files.
fn mark_group(objects: &[Object<'_>], group: Site, marks: &mut Vec<Vec<bool>>)
    requires group { comdat_groups objects.now group }
    requires files { length marks.old.items ≡ length objects.now }
    requires sections { length (get_or (map (λ row. row.items) marks.old.items) group.file []) ≡
        length (object_at objects.now group.file).sections }
    ensures { IsGroupMarked objects.now group (map (λ row. row.items) marks.old.items) (map (λ row. row.items) marks.new.items) }
{
    mark_members(&objects[group.file], group.index, &mut marks[group.file]);
}

/// Marks the members of each group whose signature an earlier one has.
fn mark_repeated(
    objects: &[Object<'_>],
    groups: &[Site],
    firsts: &[usize],
    marks: &mut Vec<Vec<bool>>,
)
    requires groups { Lists (comdat_groups objects.now) groups.now }
    requires firsts { AreEqualTo (signatures_of objects.now groups.now) firsts.now }
    requires marks { AreMarksOf objects.now groups.now 0 (map (λ row. row.items) marks.old.items) }
    ensures { AreMarksOf objects.now groups.now (length groups.now) (map (λ row. row.items) marks.new.items) }
{
    for k in 0..groups.len() {
        if firsts[k] < k {
            mark_group(objects, groups[k], marks);
        }
    }
}

/// A mark for each section of each file: whether it is discarded. It takes n log n comparisons of signatures, and reads no byte again for
/// each of those that share it.
///
/// Fails only when out of memory.
pub(crate) fn discarded(alloc: Global, objects: &[Object<'_>]) -> Result<Vec<Vec<bool>>, AllocError>
    ensures { IfOk result (λ marks. AreDiscardMarks objects.now (map (λ row. row.items) marks.items)) }
{
    let groups = groups_of(alloc, objects)?;
    let firsts = first_of_signatures(alloc, objects, &groups)?;
    let mut marks = no_marks(alloc, objects)?;
    mark_repeated(objects, &groups, &firsts, &mut marks);
    Ok(marks)
}
