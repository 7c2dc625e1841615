//! Rules 1 to 9 of the link, in order.
ghost use Rattle.std.specs.Prelude.{◌↔◌, ◌<◌, IsTrue, MatchOption, ◌≡◌, IfErr, IfOk, None, OnOk};
ghost use Rattle.elf_link_files.specs.FileRules.{AreBadOptions, IsMismatch, link_section_rules, link_symbol_rules, mismatch, option_rules};
ghost use Rattle.elf_extent.specs.Extent.{Never};
ghost use Rattle.elf_image_rules.specs.Rows.{fault_of};
ghost use Rattle.elf_link_files.specs.Rows.{FirstAt, IsFirstAt};
ghost use Rattle.elf_link_names.specs.Binds.{IsInputFault, input_rules};

use crate::name_table::NameTable;
use crate::resolution::Resolution;
use elf_link_files::rules::*;
use elf_link_files::{Broken, Inputs, LinkFault, Options, Site, SiteTest, is_no_power, site_in};
use elf_object_type::Object;
use std::alloc::Global;

// Rules 1 to 7: the options, and each file, section and symbol by itself.

/// Rule 1: whether the page is no power of two, or the base no multiple of it.
fn are_bad_options(options: &Options<'_>) -> bool
    ensures { IsTrue result ↔ AreBadOptions options.now }
{
    is_no_power(options.page) || options.base % options.page != 0
}

/// Whether two files differ in order, machine or flags.
fn is_mismatch(first: &Object<'_>, other: &Object<'_>) -> bool
    ensures { IsTrue result ↔ IsMismatch first.now other.now }
{
    first.order() != other.order()
        || first.machine() != other.machine()
        || first.flags() != other.flags()
}

/// Rule 2: the first file that differs from file 0.
fn first_mismatch(objects: &[Object<'_>]) -> Option<Site>
    ensures { MatchOption result (Never (mismatch objects.now)) (IsFirstAt (mismatch objects.now)) }
{
    for file in 0..objects.len() {
        if is_mismatch(&objects[0], &objects[file]) {
            return Some(site_in(file, 0));
        }
    }
    None
}

/// Rules 1 and 2: the options, and the files as a whole.
pub(crate) fn validate_options(
    options: &Options<'_>,
    objects: &[Object<'_>],
) -> Result<(), Broken<Site>>
    ensures { FirstAt (option_rules options.now objects.now) (fault_of result) }
{
    if are_bad_options(options) {
        return Err(Broken::new(BAD_OPTIONS, site_in(0, 0)));
    }
    if let Some(site) = first_mismatch(objects) {
        return Err(Broken::new(MISMATCH, site));
    }
    Ok(())
}

/// Rules 3 to 5: the sections.
pub(crate) fn validate_sections(inputs: &Inputs<'_, '_>) -> Result<(), Broken<Site>>
    ensures { FirstAt (link_section_rules inputs.now) (fault_of result) }
{
    if let Some(site) = inputs.first_site(SiteTest::Tls) {
        return Err(Broken::new(TLS, site));
    }
    if let Some(site) = inputs.first_site(SiteTest::LinkOrder) {
        return Err(Broken::new(LINK_ORDER, site));
    }
    if let Some(site) = inputs.first_site(SiteTest::EmptySignature) {
        return Err(Broken::new(EMPTY_SIGNATURE, site));
    }
    Ok(())
}

/// Rules 6 and 7: the symbols by themselves.
pub(crate) fn validate_symbols(inputs: &Inputs<'_, '_>) -> Result<(), Broken<Site>>
    ensures { FirstAt (link_symbol_rules inputs.now) (fault_of result) }
{
    if let Some(site) = inputs.first_site(SiteTest::BadSymbol) {
        return Err(Broken::new(BAD_SYMBOL, site));
    }
    if let Some(site) = inputs.first_site(SiteTest::BadCommon) {
        return Err(Broken::new(BAD_COMMON, site));
    }
    Ok(())
}

/// The inputs, where they break none of rules 1 to 7.
///
/// Returns the first rule that is broken, or [`LinkFault::OutOfMemory`] when out of memory. It takes memory only after rules 1 and 2.
fn validated_inputs<'l, 'a>(
    alloc: Global,
    objects: &'l [Object<'a>],
    options: &Options<'_>,
) -> Result<Inputs<'l, 'a>, LinkFault>
    ensures options { OnOk result (FirstAt (option_rules options.now objects.entry.now) None) }
    ensures sections { OnOk result (FirstAt (link_section_rules objects.entry.now) None) }
    ensures symbols { OnOk result (FirstAt (link_symbol_rules objects.entry.now) None) }
    ensures inputs { IfOk result (λ inputs. inputs ≡ objects.entry.now) }
    ensures err { IfErr result (IsInputFault options.now objects.entry.now) }
{
    validate_options(options, objects)?;
    let inputs = Inputs::new(alloc, objects)?;
    validate_sections(&inputs)?;
    validate_symbols(&inputs)?;
    Ok(inputs)
}

/// The names of the files, where they break none of rules 1 to 9.
///
/// Returns the first rule that is broken, or [`LinkFault::OutOfMemory`] when out of memory. It takes memory only after rules 1 and 2.
pub fn validate<'l, 'a>(
    alloc: Global,
    objects: &'l [Object<'a>],
    options: &Options<'_>,
) -> Result<Resolution<'l, 'a>, LinkFault>
    ensures sound { OnOk result (FirstAt (input_rules options.now objects.entry.now) None) }
    ensures options { OnOk result (FirstAt (option_rules options.now objects.entry.now) None) }
    ensures objects { IfOk result (λ resolution. resolution.objects ≡ objects.entry.now) }
    ensures err { IfErr result (IsInputFault options.now objects.entry.now) }
{
    let inputs = validated_inputs(alloc, objects, options)?;
    let table = NameTable::new(alloc, inputs)?;
    table.validate_names()?;
    let placed = table.placed_commons(alloc)?;
    Ok(Resolution::new(table, placed))
}
