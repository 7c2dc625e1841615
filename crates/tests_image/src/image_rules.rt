//! Two calls of elf_image_rules. A file that breaks each of its rules is in `cases/image_rules.txt`, except rule 1, which takes a file of
//! more than 2^30 bytes: `tools/test explain` has one.
use crate::asserts::assert_same;
use elf_field::Order;
use elf_image_rules::{Broken, rules, validate_by_sorting, verdict};
use std::alloc::Global;
use tests_files::{one_section, set};

/// What sorting finds in the file of one section, after the content of section 1 is moved to this offset; and the verdict.
fn validated_at(alloc: Global, offset: u64) -> (Option<Broken<u64>>, Option<(u16, u64)>) {
    let mut file = one_section(Order::Little);
    // Section header 1 is at 200, and its field `sh_offset` at 24 in it.
    set(&mut file, Order::Little, &[(224, 8, offset)]);
    (validate_by_sorting(alloc, &file).err(), verdict(&file))
}

// After all other contents, where it shares no byte; and on the content of section 3. The last one is the example of the root of
// elf_image_rules.
#[test]
fn validates_contents_out_of_order(rt: HostRuntime) {
    let shared = rules::SHARED_BYTE;
    assert_same(
        &rt,
        [validated_at(rt.alloc(), 130), validated_at(rt.alloc(), 96)],
        [
            (None, None),
            (Some(Broken::new(shared, 96)), Some((shared, 96))),
        ],
    );
    assert_same(&rt, verdict(&[0x7f, 0x45]), Some((rules::TOO_SHORT, 2)));
}
