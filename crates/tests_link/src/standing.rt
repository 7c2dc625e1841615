//! Where outputs are, as code asks that knows it by the laws: no difference is below 0, and no page has a rest.
ghost use Rattle.std.specs.Prelude.{◌≡◌, ◌↔◌, ◌<◌, ℕ, true, List, None, length};
ghost use Rattle.elf_link_field.specs.declared.rule.RelocRule.{RelocRule};
ghost use Rattle.elf_link_files.specs.Rows.{FirstAt};
ghost use Rattle.elf_link_map.specs.LinkMap.{LinkMapValue, FirstOfLink, IsLinkMap};
ghost use Rattle.elf_link_map.specs.Standing.{output_at};
ghost use Rattle.elf_link_relocate.specs.Linked.{IsLinked, LinkedValue, IsSoundMapButOptions, IsSoundMap};
ghost use Rattle.elf_link_relocate.specs.Linked.{HasContentAt, HaveBytes, IsInMemory};
ghost use Rattle.elf_link_relocate.specs.Linked.{IsInOutputAt, IsMemory};
ghost use Rattle.elf_link_relocate.specs.Fields.{applied_entry_rules};
ghost use Rattle.elf_object_type.specs.Object.{ObjectValue};

use crate::asserts::assert_same;
use crate::parts::mapped_by;
use elf_field::Order;
use elf_link_map::{LinkFault, LinkMap, Options, are_paged, outputs_stand, prove_objects};
use elf_link_relocate::{
    field_in_content, memory_bytes, memory_in, memory_there, memory_zero, one_byte, some_byte,
};
use elf_object_type::{Body, Object, ObjectFault};
use std::alloc::{AllocError, Global};
use tests_files::{list, object, section};

// What the laws say about the memory of a link, when they are put together.

/// Memory has a byte exactly at the addresses in outputs, and from the first common to the end of the last.
fn memory_is_there()
    ensures { (fs : List ObjectValue) (m : LinkMapValue) (rules : List RelocRule) → IsSoundMapButOptions fs m →
        FirstAt (applied_entry_rules fs m rules) None →
        (x : ℕ) → IsInMemory m x ↔ ((v : ℕ) × IsMemory fs m rules x v) }
{
    some_byte();
    memory_in();
}

/// Where bytes are relocated, memory has one byte at each of these addresses, below 256.
fn memory_is_one()
    ensures { (fs : List ObjectValue) (m : LinkMapValue) (rules : List RelocRule) (l : LinkedValue) → IsSoundMapButOptions fs m →
        IsLinked fs m rules l →
        HaveBytes fs → (x : ℕ) → IsInMemory m x → (v : ℕ) × (v < 256) × ((w : ℕ) → IsMemory fs m rules x w → w ≡ v) }
{
    memory_there();
    memory_bytes();
    one_byte();
}

/// Memory is 0 if no content is.
fn memory_without_content()
    ensures { (fs : List ObjectValue) (m : LinkMapValue) (rules : List RelocRule) → IsSoundMapButOptions fs m →
        FirstAt (applied_entry_rules fs m rules) None →
        (x : ℕ) → IsInMemory m x → ¬ HasContentAt fs m x → IsMemory fs m rules x 0 }
{
    field_in_content();
}

/// Memory is 0 in an output without bits.
fn memory_without_bits()
    ensures { (fs : List ObjectValue) (m : LinkMapValue) (rules : List RelocRule) → IsSoundMap fs m →
        FirstAt (applied_entry_rules fs m rules) None →
        (x k : ℕ) → k < length m.outputs → IsInOutputAt m k x → (output_at m k).no_bits ≡ true → IsMemory fs m rules x 0 }
{
    outputs_stand();
    memory_zero();
}

#[test]
fn memory_is_known_by_laws() {
    memory_is_there();
    memory_is_one();
    memory_without_content();
    memory_without_bits();
}

/// The bytes between each output and the next one.
fn gaps(
    alloc: Global,
    objects: &[Object<'_>],
    options: &Options<'_>,
    link: &LinkMap<'_>,
) -> Result<Vec<u64>, AllocError>
    requires { IsLinkMap options.now objects.now link.now }
{
    outputs_stand();
    let outputs = link.outputs();
    let mut gaps = Vec::new(alloc);
    for k in 1..outputs.len() {
        let end = outputs[k - 1].address + outputs[k - 1].length;
        let gap = outputs[k].address - end;
        gaps.push(gap)?;
    }
    Ok(gaps)
}

/// Whether they are these numbers.
fn are_gaps(
    alloc: Global,
    objects: &[Object<'_>],
    options: &Options<'_>,
    link: &LinkMap<'_>,
    expected: &[u64],
) -> Result<bool, AllocError>
    requires { IsLinkMap options.now objects.now link.now }
{
    let gaps = gaps(alloc, objects, options, link)?;
    Ok(gaps.as_slice() == expected)
}

/// How many pages lie below each output.
fn pages_below(
    alloc: Global,
    objects: &[Object<'_>],
    options: &Options<'_>,
    link: &LinkMap<'_>,
) -> Result<Vec<u64>, AllocError>
    requires map { IsLinkMap options.now objects.now link.now }
    requires sound { FirstOfLink options.now objects.now None }
{
    prove_objects(objects);
    are_paged();
    let outputs = link.outputs();
    let page = link.page();
    let mut pages = Vec::new(alloc);
    for k in 0..outputs.len() {
        let rest = outputs[k].address % page;
        prove!(rest == 0);
        let number = outputs[k].address / page;
        pages.push(number)?;
    }
    Ok(pages)
}

/// Whether they are these numbers.
fn are_pages_below(
    alloc: Global,
    objects: &[Object<'_>],
    options: &Options<'_>,
    link: &LinkMap<'_>,
    expected: &[u64],
) -> Result<bool, AllocError>
    requires map { IsLinkMap options.now objects.now link.now }
    requires sound { FirstOfLink options.now objects.now None }
{
    let pages = pages_below(alloc, objects, options, link)?;
    Ok(pages.as_slice() == expected)
}

/// Code, data, and memory without bits.
fn three_kinds(alloc: Global) -> Result<Object<'static>, ObjectFault> {
    let sections = list(
        alloc,
        [
            section(b".text", 6, 1, Body::Bits(1, b"\xe8\0\0\0\0\xc3")),
            section(b".data", 3, 8, Body::Bits(1, b"\x2a")),
            section(b".bss", 3, 4, Body::NoBits(0x1800)),
        ],
    )?;
    object(alloc, Order::Little, sections, Vec::new(alloc))
}

/// Whether the bytes between outputs, and the pages below them, are as wanted.
type Stands = [Result<bool, AllocError>; 2];

/// That of the outputs of these objects.
fn stand(alloc: Global, objects: &[Object<'_>]) -> Result<Stands, LinkFault> {
    let options = Options {
        base: 0x1000,
        page: 0x1000,
        entry: None,
    };
    let link = mapped_by(alloc, objects, &options)?;
    Ok([
        are_gaps(alloc, objects, &options, &link, &[0xffa, 0xfff]),
        are_pages_below(alloc, objects, &options, &link, &[1, 2, 3]),
    ])
}

/// What stands in the link of the three kinds.
fn three_kinds_stand(alloc: Global) -> Result<Result<Stands, LinkFault>, ObjectFault> {
    let objects = [three_kinds(alloc)?];
    Ok(stand(alloc, &objects))
}

#[test]
fn outputs_stand_at_pages(rt: HostRuntime) {
    assert_same(&rt, three_kinds_stand(rt.alloc()), Ok(Ok([Ok(true); 2])));
}
