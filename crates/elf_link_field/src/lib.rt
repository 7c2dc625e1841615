//! Relocations as relocation rules describe them (gABI chapter 4, Relocation; the rules are this project's profile): the exact
//! number of an entry, the numbers that its field admits, and the bytes in which the field holds it.
//!
//! Relocations know nothing of a link: they see symbols and addresses as numbers.
//!
//! ```
//! // A field of four bytes that counts from itself: the address of a call's target, less four bytes, less the field's address.
//! let rule = RelocRule { kind: 2, form: Form::Pc, width: Width::W4, range: Range::Signed };
//! let number = rule.form.number(0x1006, -4, 0x1001);
//! assert_eq!(rt; number, 1);
//! assert!(rt; rule.range.admits(rule.width, number));
//! let mut code = [0xe8, 0, 0, 0, 0];
//! patch(Order::Little, &mut code, 1, rule.width, number);
//! assert_eq!(rt; code, [0xe8, 1, 0, 0, 0]);
//! ```
#![tactic(auto)]

mod field;
mod laws;
mod number;
mod rule;

pub use field::patch;
pub use laws::patched_field;
pub use number::addend_in;
pub use rule::{Form, Range, RelocRule, Width, rule_of};
