//! The numbers and fields of elf_link_field.
use crate::asserts::assert_same;
use elf_field::Order;
use elf_link_field::{Form, Range, RelocRule, Width, addend_in, patch, rule_of};

// The example of the root of elf_link_field: a call of what is at 0x1006, in code at 0x1000.
#[test]
fn a_call(rt: HostRuntime) {
    let rule = RelocRule {
        kind: 2,
        form: Form::Pc,
        width: Width::W4,
        range: Range::Signed,
    };
    let number = rule.form.number(0x1006, -4, 0x1001);
    let admitted = rule.range.admits(rule.width, number);
    let mut code = [0xe8, 0, 0, 0, 0];
    patch(Order::Little, &mut code, 1, rule.width, number);
    assert_same(&rt, (number, admitted, code), (1, true, [0xe8, 1, 0, 0, 0]));
}

/// The number in a field of four bytes that are fc ff ff ff.
fn addend(order: Order, range: Range) -> i128 {
    let bytes = [0, 0xfc, 0xff, 0xff, 0xff, 0];
    addend_in(order, range, Width::W4, &bytes, 1)
}

// What each form counts; and the field of four bytes that counts from -4, or from 4,294,967,292 where it has no negative numbers.
#[test]
fn numbers_and_addends(rt: HostRuntime) {
    let numbers = [
        Form::Abs.number(0x2008, -4, 0x2000),
        Form::Abs.number(0x2008, 4_294_967_292, 0x2000),
        Form::Pc.number(0, -1, 0xffff_ffff_ffff_ffff),
        addend(Order::Little, Range::Signed),
        addend(Order::Little, Range::Wrap),
        addend(Order::Little, Range::Unsigned),
        addend(Order::Big, Range::Signed),
        addend(Order::Big, Range::Wrap),
        addend(Order::Big, Range::Unsigned),
    ];
    let expected = [
        0x2004,
        4_294_975_492,
        -0x1_0000_0000_0000_0000,
        -4,
        -4,
        4_294_967_292,
        -50_331_649,
        -50_331_649,
        4_244_635_647,
    ];
    assert_same(&rt, numbers, expected);
}

/// What fields of this width admit at the borders of the signed numbers, at those of the unsigned ones, and
/// past both.
fn admitted(
    width: Width,
    least: i128,
    most: i128,
    largest: i128,
) -> ([bool; 4], [bool; 4], [bool; 2]) {
    let below = least.saturating_sub(1);
    let above = largest.saturating_add(1);
    let signed = [
        Range::Signed.admits(width, below),
        Range::Signed.admits(width, least),
        Range::Signed.admits(width, most),
        Range::Signed.admits(width, most.saturating_add(1)),
    ];
    let unsigned = [
        Range::Unsigned.admits(width, -1),
        Range::Unsigned.admits(width, 0),
        Range::Unsigned.admits(width, largest),
        Range::Unsigned.admits(width, above),
    ];
    let all = [
        Range::Wrap.admits(width, below),
        Range::Wrap.admits(width, above),
    ];
    (signed, unsigned, all)
}

#[test]
fn borders_of_what_a_field_admits(rt: HostRuntime) {
    let borders = [
        admitted(Width::W1, -128, 127, 255),
        admitted(Width::W2, -0x8000, 0x7fff, 0xffff),
        admitted(Width::W4, -0x8000_0000, 0x7fff_ffff, 0xffff_ffff),
        admitted(
            Width::W8,
            -0x8000_0000_0000_0000,
            0x7fff_ffff_ffff_ffff,
            0xffff_ffff_ffff_ffff,
        ),
    ];
    let inside = [false, true, true, false];
    assert_same(&rt, borders, [(inside, inside, [true, true]); 4]);
}

/// Ten bytes, with this number patched into those from the second on.
fn patched(order: Order, width: Width, number: i128) -> [u8; 10] {
    let mut bytes = [9; 10];
    patch(order, &mut bytes, 1, width, number);
    bytes
}

// What passes the field is left out of it.
#[test]
fn fields_in_both_orders(rt: HostRuntime) {
    let fields = [
        patched(Order::Little, Width::W1, 0x102),
        patched(Order::Little, Width::W2, 0x10203),
        patched(Order::Big, Width::W2, -2),
        patched(Order::Little, Width::W4, 4_294_975_492),
        patched(Order::Big, Width::W4, 0x2004),
        patched(Order::Big, Width::W8, -0x1_0000_0000_0000_0000),
    ];
    let expected = [
        [9, 2, 9, 9, 9, 9, 9, 9, 9, 9],
        [9, 3, 2, 9, 9, 9, 9, 9, 9, 9],
        [9, 0xff, 0xfe, 9, 9, 9, 9, 9, 9, 9],
        [9, 4, 0x20, 0, 0, 9, 9, 9, 9, 9],
        [9, 0, 0, 0x20, 4, 9, 9, 9, 9, 9],
        [9, 0, 0, 0, 0, 0, 0, 0, 0, 9],
    ];
    assert_same(&rt, fields, expected);
}

/// A rule of this kind and form.
fn rule(kind: u32, form: Form) -> RelocRule {
    RelocRule {
        kind,
        form,
        width: Width::W4,
        range: Range::Signed,
    }
}

// The first rule of a kind.
#[test]
fn first_rules(rt: HostRuntime) {
    let rules = [rule(1, Form::Abs), rule(2, Form::Pc), rule(2, Form::None)];
    let found = [rule_of(&rules, 2), rule_of(&rules, 3)];
    let pc = Some(rule(2, Form::Pc));
    assert_same(&rt, found, [pc, None]);
}
