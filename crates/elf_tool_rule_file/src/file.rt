//! A file of relocation rules.
ghost use Rattle.std.specs.Prelude.{MatchOption, ◌≡◌, ◌≢◌, ℕ, IfErr, IfOk};
ghost use Rattle.std.specs.Char.{is_ascii_digit};
ghost use Rattle.std.specs.List.{list_all};
ghost use Rattle.elf_tool_rule_file.specs.RuleFile.{AreCut, HasNo, IsKindWord, IsRuleLine, form_word, range_word, width_word, AreRules};
ghost use Rattle.elf_tool_rule_file.specs.RuleFile.{BeginsWithRule, IsRuleFollowed, IsRulesFault};
ghost use Rattle.elf_link_field.specs.declared.rule.Form.{Form as AForm};
ghost use Rattle.elf_link_field.specs.declared.rule.Range.{Range as ARange};
ghost use Rattle.elf_link_field.specs.declared.rule.RelocRule.{RelocRule as ARule};
ghost use Rattle.elf_link_field.specs.declared.rule.Width.{Width as AWidth};

use elf_link_field::{Form, Range, RelocRule, Width};
use memchr::memchr;
use std::alloc::Global;
use std::str;
use thiserror::Error;

// Bytes cut at the first byte of some value.

/// What is before the first of these bytes, and after it. None if there is none.
pub(crate) fn cut(byte: u8, bytes: &[u8]) -> Option<(&[u8], &[u8])>
    ensures { MatchOption result (HasNo byte bytes.now) (λ parts. AreCut byte bytes.now parts.0.now parts.1.now) }
{
    let place = memchr(byte, bytes)?;
    Some((&bytes[..place], &bytes[place + 1..]))
}

// Why a file gives no relocation rules.

/// Why bytes give no relocation rules.
#[derive(Clone, Copy, Debug, PartialEq, Eq, Error)]
pub enum RulesFault {
    /// This line is not that of a rule with its line feed, or is the 257th. Lines count from 1, and those before it are rules.
    #[error("bad rule line {line}")]
    BadLine { line: usize },
    /// An allocation failed. The first line is that of a rule.
    #[error("out of memory")]
    OutOfMemory,
}

// The line of a relocation rule, and its words.

/// The relocation rule of a line without its line feed. None if it is no rule's.
pub(crate) fn rule_in(line: &[u8]) -> Option<RelocRule>
    ensures { MatchOption result ((rule : ARule) → IsRuleLine line.now rule → ⊥) (IsRuleLine line.now) }
{
    let (kind, rest) = cut(b' ', line)?;
    let (form, rest) = cut(b' ', rest)?;
    let (width, range) = cut(b' ', rest)?;
    Some(RelocRule {
        kind: kind_of(kind)?,
        form: form_of(form)?,
        width: width_of(width)?,
        range: range_of(range)?,
    })
}

fn kind_of(word: &[u8]) -> Option<u32>
    ensures { MatchOption result ((kind : ℕ) → IsKindWord word.now kind → ⊥) (IsKindWord word.now) }
{
    // What reads the number would take a sign, too.
    if !are_digits(word) {
        return None;
    }
    let digits = str::from_utf8(word).ok()?;
    u32::from_str_radix(digits, 10).ok()
}

fn are_digits(word: &[u8]) -> bool
    ensures { result ≡ list_all is_ascii_digit word.now }
{
    word.iter().all(|b| b.is_ascii_digit())
}

fn form_of(word: &[u8]) -> Option<Form>
    ensures { MatchOption result ((form : AForm) → word.now ≢ form_word form) (λ form. word.now ≡ form_word form) }
{
    match word {
        b"abs" => Some(Form::Abs),
        b"pc" => Some(Form::Pc),
        b"none" => Some(Form::None),
        _ => None,
    }
}

fn width_of(word: &[u8]) -> Option<Width>
    ensures { MatchOption result ((width : AWidth) → word.now ≢ width_word width) (λ width. word.now ≡ width_word width) }
{
    match word {
        b"1" => Some(Width::W1),
        b"2" => Some(Width::W2),
        b"4" => Some(Width::W4),
        b"8" => Some(Width::W8),
        _ => None,
    }
}

fn range_of(word: &[u8]) -> Option<Range>
    ensures { MatchOption result ((range : ARange) → word.now ≢ range_word range) (λ range. word.now ≡ range_word range) }
{
    match word {
        b"signed" => Some(Range::Signed),
        b"unsigned" => Some(Range::Unsigned),
        b"wrap" => Some(Range::Wrap),
        _ => None,
    }
}

/// How many relocation rules a file has at most.
const MOST_RULES: usize = 256;

/// The relocation rules of a file, in order. [`RulesFault::BadLine`] comes exactly if a line is none of a rule or there are more than
/// 256, out of memory aside; the last line has a line feed too, and after it there is nothing. [`RulesFault::OutOfMemory`] comes only if
/// an allocation fails; the rules alone take memory. Linear in the bytes.
pub fn read_rules(alloc: Global, bytes: &[u8]) -> Result<Vec<RelocRule>, RulesFault>
    ensures ok { IfOk result (λ rules. AreRules bytes.now rules.items) }
    ensures err { IfErr result (IsRulesFault bytes.now) }
{
    let mut rules = Vec::new(alloc);
    let mut rest = bytes;
    while !rest.is_empty() {
        let line = rules.len() + 1;
        if line > MOST_RULES {
            return Err(RulesFault::BadLine { line });
        }
        let Some((rule, later)) = first_rule(rest) else {
            return Err(RulesFault::BadLine { line });
        };
        let Ok(()) = rules.push(rule) else {
            return Err(RulesFault::OutOfMemory);
        };
        rest = later;
    }
    Ok(rules)
}

// The relocation rule of the first line, and what is after its line feed.
fn first_rule(bytes: &[u8]) -> Option<(RelocRule, &[u8])>
    ensures { MatchOption result (BeginsWithRule bytes.now → ⊥) (λ found. IsRuleFollowed bytes.now found.0 found.1.now) }
{
    let (line, rest) = cut(b'\n', bytes)?;
    Some((rule_in(line)?, rest))
}
