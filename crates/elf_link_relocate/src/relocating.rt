//! The relocation of a link.
ghost use Rattle.std.specs.Prelude.{◌≡◌, IfErr, IfOk, None, OnOk, Some, map as map_list};
ghost use Rattle.elf_extent.specs.Extent.{Never};
ghost use Rattle.elf_link_files.specs.Rows.{FirstAt};
ghost use Rattle.elf_link_relocate.specs.Passes.{AreFoundInOrder, AreRelocatedCopies, IsOverlapFault, IsRuleFault, NoneUnruled};
ghost use Rattle.elf_link_relocate.specs.Passes.{copies_view, test_number};
ghost use Rattle.elf_link_relocate.specs.Fields.{IsRelocationFault, applied_entry_rules, field_out_of_range, fields_overlap};
ghost use Rattle.elf_link_map.specs.Naming.{AreBindingIndexes};
ghost use Rattle.elf_link_map.specs.LinkMap.{IsOnlyFault, IsOnlyFirst};
ghost use Rattle.elf_link_relocate.specs.Linked.{FieldsHoldNumbers, IsLinked, IsSoundMapButOptions, IsSoundMap};
ghost use Rattle.elf_link_relocate.specs.Linked.{IsOnlyLinked, IsSoundLinked};

use crate::collecting::pass_over_entries;
use crate::copies::Copies;
use crate::field::{Field, FieldList, FieldTest, Found};
use crate::linked::Linked;
use crate::rules::FIELDS_OVERLAP;
use crate::values::{Linking, Values};
use elf_link_field::RelocRule;
use elf_link_map::{Broken, LinkFault, LinkMap, Site, name_indexes, prove_objects};
use elf_object_type::Object;
use std::alloc::Global;

// Rules 12 to 16 of the link, in their order.

/// Returns a rule at the first site where it is broken, if there is one.
fn refuse(test: FieldTest, first: Option<Site>) -> Result<(), Broken<Site>>
    ensures ok { OnOk result (first ≡ None) }
    ensures err { IfErr result (λ broken. (broken.rule ≡ test_number test) × (first ≡ Some broken.at)) }
{
    match first {
        Some(site) => Err(Broken::new(test.rule(), site)),
        None => Ok(()),
    }
}

impl Values<'_, '_, '_> {
    /// Returns rule 15 at the first field that shares a byte with one before it. Fields that ascend share none.
    fn refuse_overlap(&self, alloc: Global, found: &Found) -> Result<(), LinkFault>
        requires found { AreFoundInOrder self.now.objects self.now.map self.now.rules found.now }
        requires within { Never (field_out_of_range self.now.objects self.now.rules) }
        ensures ok { OnOk result (Never (fields_overlap self.now.objects self.now.rules)) }
        ensures err { IfErr result (IsOverlapFault self.now.objects self.now.rules) }
    {
        if found.seen.ascending {
            return Ok(());
        }
        let fields: &[Field] = &found.list;
        let list = FieldList {
            values: self,
            fields,
        };
        match list.first_overlap(alloc)? {
            Some(k) => Err(Broken::new(FIELDS_OVERLAP, fields[k].site).into()),
            None => Ok(()),
        }
    }

    /// Returns the first of rules 13 to 16 that a field breaks.
    fn refuse_fields(&self, alloc: Global, found: &Found) -> Result<(), LinkFault>
        requires found { AreFoundInOrder self.now.objects self.now.map self.now.rules found.now }
        requires ruled { NoneUnruled self.now.objects self.now.rules }
        ensures ok { OnOk result (FirstAt (applied_entry_rules self.now.objects self.now.map self.now.rules) None) }
        ensures err { IfErr result (IsRelocationFault self.now.objects self.now.map self.now.rules) }
    {
        refuse(FieldTest::Unplaced, found.seen.unplaced)?;
        refuse(FieldTest::FieldOutOfRange, found.seen.out_of_range)?;
        self.refuse_overlap(alloc, found)?;
        refuse(FieldTest::ValueOutOfRange, found.seen.refused)?;
        Ok(())
    }
}

/// What one pass over all entries finds, or a second one, with the list of the fields, if these do not ascend. Returns rule 12, at the
/// first applied entry whose kind has no relocation rule.
fn found_in_order(alloc: Global, values: &Values<'_, '_, '_>) -> Result<Found, LinkFault>
    ensures found { IfOk result (AreFoundInOrder values.now.objects values.now.map values.now.rules) }
    ensures ruled { OnOk result (NoneUnruled values.now.objects values.now.rules) }
    ensures err { IfErr result (IsRuleFault values.now.objects values.now.rules) }
{
    let found = pass_over_entries(alloc, values, false)?;
    if found.seen.ascending {
        return Ok(found);
    }
    drop(found);
    pass_over_entries(alloc, values, true)
}

/// The copies of the live sections with bits, each field with its number. Returns the first of rules 12 to 16 that is broken.
fn relocated_copies(alloc: Global, values: Values<'_, '_, '_>) -> Result<Copies, LinkFault>
    ensures copies { IfOk result
        (λ copies. AreRelocatedCopies values.entry.objects values.entry.map values.entry.rules (copies_view copies.items)) }
    ensures sound { OnOk result (FirstAt (applied_entry_rules values.entry.objects values.entry.map values.entry.rules) None) }
    ensures err { IfErr result (IsRelocationFault values.entry.objects values.entry.map values.entry.rules) }
{
    let found = found_in_order(alloc, &values)?;
    values.refuse_fields(alloc, &found)?;
    Ok(found.copies)
}

/// The relocated bytes of these objects, as [`relocate`] returns them, by the indexes of the names that `map_indexed` of `elf_link_map`
/// returns beside the map. It takes the memory of [`relocate`], but for the indexes.
pub fn relocate_indexed<'m, 'a>(
    alloc: Global,
    map: &'m LinkMap<'a>,
    objects: &'m [Object<'a>],
    rules: &'m [RelocRule],
    indexes: &[Vec<usize>],
) -> Result<Linked<'m, 'a>, LinkFault>
    requires map { IsSoundMapButOptions objects.now map.now }
    requires indexes { AreBindingIndexes objects.now map.now (map_list (λ row. row.items) indexes.now) }
    ensures linked { IfOk result (λ linked. IsLinked objects.now map.now rules.now linked) }
    ensures err { IfErr result (IsRelocationFault objects.now map.now rules.now) }
{
    let linking = Linking {
        objects,
        map,
        rules,
    };
    let values = Values::new(&linking, indexes);
    let copies = relocated_copies(alloc, values)?;
    prove_objects(objects);
    Ok(Linked {
        map,
        objects,
        rules,
        copies,
    })
}

/// The relocated bytes of these objects, whose link map it is: the number of each applied relocation in its field, by the first
/// relocation rule of its kind.
///
/// The condition holds for a map that [`map`](elf_link_map::map) returned for these objects: `match map(..) { Ok(link) => .. }`. It asks
/// nothing of the map's base, page and entry, nor that there is an entry symbol. If `map` returned the map, `write_exec` of `elf_exec` can
/// write the relocated bytes.
///
/// [`LinkFault::Rule`] is the first of rules 12 to 16 ([`rules`](crate::rules)) that is broken, at its first entry by file, section and
/// position. [`LinkFault::OutOfMemory`] comes only if an allocation fails: an index for each symbol, a copy of each live section with bits;
/// and if the fields don't ascend, two lists of them, and the extents of those of one section. Takes log n comparisons at most for each
/// symbol, and for each field if they don't ascend, and a look through the rules for each entry, or then two; all else is linear in the
/// bytes, entries and symbols. If then two fields share a byte, finding the first such entry takes log n looks at each field.
pub fn relocate<'m, 'a>(
    alloc: Global,
    map: &'m LinkMap<'a>,
    objects: &'m [Object<'a>],
    rules: &'m [RelocRule],
) -> Result<Linked<'m, 'a>, LinkFault>
    requires { IsSoundMapButOptions objects.now map.now }
    ensures linked { IfOk result (λ linked. IsLinked objects.now map.now rules.now linked) }
    ensures numbers { IfOk result (FieldsHoldNumbers objects.now map.now rules.now) }
    ensures ready { IfOk result (λ linked. IsSoundMap objects.now map.now → IsSoundLinked linked) }
    ensures err { IfErr result (IsRelocationFault objects.now map.now rules.now) }
    ensures only_linked { IfOk result (IsOnlyLinked objects.now map.now rules.now) }
    ensures only_sound { OnOk result (IsOnlyFirst (FirstAt (applied_entry_rules objects.now map.now rules.now)) None) }
    ensures only_err { IfErr result (IsOnlyFault (FirstAt (applied_entry_rules objects.now map.now rules.now))) }
{
    let indexes = name_indexes(alloc, objects, map)?;
    relocate_indexed(alloc, map, objects, rules, &indexes)
}
