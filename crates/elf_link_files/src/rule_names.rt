//! The names of rules by their numbers. Made by `tools/release tables` from docs/RULES.md.

/// The name of a rule of the link, as `BAD_OPTIONS` of 1; empty where no rule has the number.
pub fn rule_name(rule: u16) -> &'static str {
    match NAMES.get(rule as usize) {
        Some(name) => name,
        None => "",
    }
}

const NAMES: [&str; 17] = [
    "",
    "BAD_OPTIONS",
    "MISMATCH",
    "TLS",
    "LINK_ORDER",
    "EMPTY_SIGNATURE",
    "BAD_SYMBOL",
    "BAD_COMMON",
    "TWO_DEFINITIONS",
    "UNDEFINED_NAME",
    "NO_ENTRY",
    "ADDRESS_OVERFLOW",
    "NO_RULE",
    "UNPLACED",
    "FIELD_OUT_OF_RANGE",
    "FIELDS_OVERLAP",
    "VALUE_OUT_OF_RANGE",
];
