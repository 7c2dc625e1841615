//! Several files by name.
ghost use Rattle.std.specs.Prelude.{IfErr, IfOk, OnOk, map, suc, take, [], ◌∷◌, ◌≡◌};
ghost use Rattle.elf_tool_check.specs.Ending.{AsksInOrder};
ghost use Rattle.elf_tool_program.specs.Program.{AreOpened, IsUnopened, GivesNoRules, GivesRules, ReadsNoRules, ReadsRules};

use elf_image_rules::MAX_LEN;
use elf_image_stream::{InputFault, read_all};
use elf_link_field::RelocRule;
use elf_tool_check::{OpenFault, Opener};
use elf_tool_rule_file::{RulesFault, read_rules};
use std::alloc::Global;
use std::io::Read;

/// Why files are not all open: the one of the name at this position gave no reader.
#[derive(Clone, Copy)]
pub(crate) struct Unopened {
    pub position: usize,
    pub fault: OpenFault,
}

/// Readers of the files of these names, opened in order up to the first that gives none.
pub(crate) fn open_all<O: Opener>(
    alloc: Global,
    names: &[&str],
    files: &mut O,
) -> Result<Vec<O::Input>, Unopened>
    ensures ok { IfOk result (λ inputs.
        AreOpened (O.holds files.old) (map (λ name. name.now) names.now) (map O.Input.remaining inputs.items)) }
    ensures err { IfErr result (IsUnopened (O.opens files.old) (map (λ name. name.now) names.now)) }
    ensures asked { OnOk result (AsksInOrder (O.asked files.old) (O.asked files.new) (map (λ name. name.now) names.now)) }
    ensures stopped { IfErr result (λ unopened.
        AsksInOrder (O.asked files.old) (O.asked files.new) (take (suc unopened.position) (map (λ name. name.now) names.now))) }
{
    let mut inputs = Vec::new(alloc);
    for k in 0..names.len() {
        let input = match files.reader(names[k]) {
            Ok(input) => input,
            Err(fault) => return Err(Unopened { position: k, fault }),
        };
        let Ok(()) = inputs.push(input) else {
            return Err(Unopened {
                position: k,
                fault: OpenFault::OutOfMemory,
            });
        };
    }
    Ok(inputs)
}

// The file of relocation rules that `map` and `link` are given.

/// Why a file gives no relocation rules.
#[derive(Clone, Copy)]
pub(crate) enum NoRules {
    /// There is no such file, or it may not be read.
    Unopened,
    /// A call of its reader failed, after it had given `at` bytes.
    Unread { at: u64 },
    /// This line of it is bad, and none before it.
    BadLine { line: usize },
    /// An allocation failed.
    OutOfMemory,
}

/// The relocation rules of the file of this name, which is read whole. One longer than 2^30 bytes gives none: where no line that was read
/// is bad, the one after them is reported.
pub(crate) fn rules_of<O: Opener>(
    alloc: Global,
    name: &str,
    files: &mut O,
) -> Result<Vec<RelocRule>, NoRules>
    ensures ok { IfOk result (λ rules. GivesRules (O.holds files.old name.now) rules.items) }
    ensures err { IfErr result (GivesNoRules (O.holds files.old name.now) (O.opens files.old name.now)) }
    ensures kept { O.holds files.new ≡ O.holds files.old }
    ensures still { O.opens files.new ≡ O.opens files.old }
    ensures asked { AsksInOrder (O.asked files.old) (O.asked files.new) (name.now ∷ []) }
{
    match files.reader(name) {
        Ok(mut input) => rules_from(alloc, &mut input),
        Err(OpenFault::Refused) => Err(NoRules::Unopened),
        Err(OpenFault::OutOfMemory) => Err(NoRules::OutOfMemory),
    }
}

// The relocation rules that a reader gives.
fn rules_from<R: Read>(alloc: Global, input: &mut R) -> Result<Vec<RelocRule>, NoRules>
    ensures ok { IfOk result (λ rules. ReadsRules (R.remaining input.old) (R.remaining input.new) rules.items) }
    ensures err { IfErr result (ReadsNoRules (R.remaining input.old) (R.remaining input.new)) }
{
    let mut file = Vec::new(alloc);
    match read_all(input, &mut file) {
        Ok(()) => match read_rules(alloc, &file) {
            Ok(rules) if file.len() as u64 > MAX_LEN => Err(NoRules::BadLine {
                line: rules.len() + 1,
            }),
            Ok(rules) => Ok(rules),
            Err(RulesFault::BadLine { line }) => Err(NoRules::BadLine { line }),
            Err(RulesFault::OutOfMemory) => Err(NoRules::OutOfMemory),
        },
        Err(InputFault::Io { at }) => Err(NoRules::Unread { at }),
        Err(InputFault::OutOfMemory) => Err(NoRules::OutOfMemory),
    }
}
