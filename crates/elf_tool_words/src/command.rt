//! The program's command line, defined once. A further command is one more item of `elfmap`, here and in `specs/Command.antt`, and a
//! function for its arguments; where these are one file alone, that is a call of `file_command`.
ghost use Rattle.std.specs.Prelude.{◌≡◌, false, IfOk, IsOkAnd};
ghost use Rattle.clap.specs.Simple.{with_subcommand};
ghost use Rattle.clap.specs.Words.{app_of, shape_of};
ghost use Rattle.clap.specs.declared.builder.command.Command.TheViews.{out-Command as fields_of};
ghost use Rattle.clap.specs.Walk.{rule_of};
ghost use Rattle.elf_tool_words.specs.Command.{base as base_rule, check as check_shape, elfmap as elfmap_app, entry_word as entry_rule};
ghost use Rattle.elf_tool_words.specs.Command.{file_command as file_shape, files as files_rule, link_command as link_shape};
ghost use Rattle.elf_tool_words.specs.Command.{map_command as map_shape, needed_rules_file as needed_rules_rule, page as page_rule};
ghost use Rattle.elf_tool_words.specs.Command.{placing_command as placing_shape, with_file_commands, rewrite as rewrite_shape};
ghost use Rattle.elf_tool_words.specs.Command.{rules_file as rules_rule, seek as seek_rule, show as show_shape};

use clap::{Arg, ArgAction, Command};
use std::alloc::{AllocError, Global};

/// The whole command.
pub(crate) fn elfmap<'a>(alloc: Global) -> Result<Command<'a>, AllocError>
    ensures { IfOk result (λ command. app_of command ≡ elfmap_app) }
{
    let command = Command::new(alloc, "elfmap")
        .about("Checks, shows, rewrites and links ELF-64 object files")
        .subcommand_required(true)
        .disable_help_subcommand(true);
    let command = with_file_commands(alloc, command)?;
    let command = with(command, map_command(alloc))?;
    with(command, link_command(alloc))
}

// The command with the subcommands of one file.
fn with_file_commands<'a>(alloc: Global, command: Command<'a>) -> Result<Command<'a>, AllocError>
    ensures { IfOk result (λ more. app_of more ≡ with_file_commands (app_of command.entry)) }
{
    let command = with(command, check_command(alloc))?;
    let command = with(command, show_command(alloc))?;
    with(command, rewrite_command(alloc))
}

// The command with one more subcommand, if that could be made.
fn with<'a>(
    command: Command<'a>,
    made: Result<Command<'a>, AllocError>,
) -> Result<Command<'a>, AllocError>
    requires { IfOk made (λ sub. (fields_of sub).has_globals ≡ false) }
    ensures { IfOk result (λ more. IsOkAnd made.entry (λ sub. app_of more ≡ with_subcommand (app_of command.entry) (shape_of sub))) }
{
    command.subcommand(made?)
}

fn check_command<'a>(alloc: Global) -> Result<Command<'a>, AllocError>
    ensures shape { IfOk result (λ command. shape_of command ≡ check_shape) }
    ensures local { IfOk result (λ command. (fields_of command).has_globals ≡ false) }
{
    let command = file_command(
        alloc,
        "check",
        "Prints whether FILE is an ELF-64 file, or the first rule that it breaks and where",
        "The file to check",
    )?;
    command.arg(seek(alloc))
}

fn seek<'a>(alloc: Global) -> Arg<'a>
    ensures rule { rule_of result ≡ seek_rule }
    ensures local { result.global ≡ false }
{
    Arg::new(alloc, "seek")
        .long("seek")
        .help("Seeks in FILE, and reads only what the check needs")
        .action(ArgAction::SetTrue)
}

// A subcommand whose one argument is a file.
fn file_command<'a>(
    alloc: Global,
    name: &'a str,
    about: &'a str,
    help: &'a str,
) -> Result<Command<'a>, AllocError>
    ensures shape { IfOk result (λ command. shape_of command ≡ file_shape name.entry.now) }
    ensures local { IfOk result (λ command. (fields_of command).has_globals ≡ false) }
{
    let file = Arg::new(alloc, "FILE").help(help).required(true);
    Command::new(alloc, name).about(about).arg(file)
}

#[tactic(auto, unfolding(crate::specs::Command::show))]
fn show_command<'a>(alloc: Global) -> Result<Command<'a>, AllocError>
    ensures shape { IfOk result (λ command. shape_of command ≡ show_shape) }
    ensures local { IfOk result (λ command. (fields_of command).has_globals ≡ false) }
{
    file_command(
        alloc,
        "show",
        "Shows the header, the parts, the sections, the segments and the tables of FILE",
        "The file to show",
    )
}

#[tactic(auto, unfolding(crate::specs::Command::rewrite))]
fn rewrite_command<'a>(alloc: Global) -> Result<Command<'a>, AllocError>
    ensures shape { IfOk result (λ command. shape_of command ≡ rewrite_shape) }
    ensures local { IfOk result (λ command. (fields_of command).has_globals ≡ false) }
{
    file_command(
        alloc,
        "rewrite",
        "Writes the object of FILE in canonical layout on standard output",
        "The relocatable file to rewrite",
    )
}

// A subcommand that places what it links, so far without its other arguments.
fn placing_command<'a>(
    alloc: Global,
    name: &'a str,
    about: &'a str,
) -> Result<Command<'a>, AllocError>
    ensures shape { IfOk result (λ command. shape_of command ≡ placing_shape name.entry.now) }
    ensures local { IfOk result (λ command. (fields_of command).has_globals ≡ false) }
{
    Command::new(alloc, name)
        .about(about)
        .arg(base(alloc))?
        .arg(page(alloc))
}

fn map_command<'a>(alloc: Global) -> Result<Command<'a>, AllocError>
    ensures shape { IfOk result (λ command. shape_of command ≡ map_shape) }
    ensures local { IfOk result (λ command. (fields_of command).has_globals ≡ false) }
{
    placing_command(
        alloc,
        "map",
        "Shows where the sections and names of the FILEs are in their link",
    )?
    .arg(rules(alloc))?
    .arg(files(alloc))
}

fn link_command<'a>(alloc: Global) -> Result<Command<'a>, AllocError>
    ensures shape { IfOk result (λ command. shape_of command ≡ link_shape) }
    ensures local { IfOk result (λ command. (fields_of command).has_globals ≡ false) }
{
    placing_command(
        alloc,
        "link",
        "Links the FILEs, and writes the executable on standard output",
    )?
    .arg(entry(alloc))?
    .arg(needed_rules(alloc))?
    .arg(files(alloc))
}

fn base<'a>(alloc: Global) -> Arg<'a>
    ensures rule { rule_of result ≡ base_rule }
    ensures local { result.global ≡ false }
{
    Arg::new(alloc, "B")
        .long("base")
        .help("The address at which placement begins, a multiple of P")
        .required(true)
}

fn page<'a>(alloc: Global) -> Arg<'a>
    ensures rule { rule_of result ≡ page_rule }
    ensures local { result.global ≡ false }
{
    Arg::new(alloc, "P")
        .long("page")
        .help("Each output section begins at a multiple of it, a power of two")
        .required(true)
}

fn entry<'a>(alloc: Global) -> Arg<'a>
    ensures rule { rule_of result ≡ entry_rule }
    ensures local { result.global ≡ false }
{
    Arg::new(alloc, "NAME")
        .long("entry")
        .help("The symbol at which the program begins")
        .required(true)
}

fn rules<'a>(alloc: Global) -> Arg<'a>
    ensures rule { rule_of result ≡ rules_rule }
    ensures local { result.global ≡ false }
{
    Arg::new(alloc, "RULES").long("rules").help(
        "The file of relocation rules, a line KIND abs|pc|none 1|2|4|8 signed|unsigned|wrap each",
    )
}

fn needed_rules<'a>(alloc: Global) -> Arg<'a>
    ensures rule { rule_of result ≡ needed_rules_rule }
    ensures local { result.global ≡ false }
{
    rules(alloc).required(true)
}

fn files<'a>(alloc: Global) -> Arg<'a>
    ensures rule { rule_of result ≡ files_rule }
    ensures local { result.global ≡ false }
{
    Arg::new(alloc, "FILE")
        .help("The relocatable files to link, at most 64")
        .required(true)
        .action(ArgAction::Append)
}
