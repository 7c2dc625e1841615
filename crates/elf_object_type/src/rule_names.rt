//! The names of rules by their numbers. Made by `tools/release tables` from docs/RULES.md.

/// The name of a rule of objects, as `ZERO_IN_SECTION_NAME` of 1; empty where no rule has the number.
pub fn rule_name(rule: u16) -> &'static str {
    match NAMES.get(rule as usize) {
        Some(name) => name,
        None => "",
    }
}

const NAMES: [&str; 10] = [
    "",
    "ZERO_IN_SECTION_NAME",
    "WRONG_BITS_TYPE",
    "WRONG_ALIGNMENT",
    "WRONG_POSITION",
    "WRONG_FIELD",
    "WRONG_MEMBERSHIP",
    "ZERO_IN_SYMBOL_NAME",
    "WRONG_PLACE",
    "MISPLACED_LOCAL",
];
