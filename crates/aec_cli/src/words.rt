//! The command and its words.

ghost use Rattle.std.specs.Prelude.{◌≡◌, IfOk, IfErr, false, map};
ghost use Rattle.std.specs.String.{string_bytes};
ghost use Rattle.clap.specs.Faults.{fault_of};
ghost use Rattle.clap.specs.Kinds.{FailsBy};
ghost use Rattle.clap.specs.Matches.{found_of};
ghost use Rattle.clap.specs.Simple.{app_of, matches_of};
ghost use Rattle.clap.specs.Walk.{rows_of, rule_of};
ghost use Rattle.aec_cli.specs.Commands.{aec_app, with_rules, flag_rule, long_flag_rule, number_rule, long_number_rule, long_text_rule, file_rule};
ghost use Rattle.aec_cli.specs.Commands.{number_rules, coding_rules, storage_rules, work_rules, file_rules};

use crate::usage::Usage;
use clap::builder::ValueParser;
use clap::{Arg, ArgAction, ArgMatches, Command, Error};
use std::alloc::{AllocError, Global};

/// What `--version` prints after the name.
const VERSION: &str = "1.1.0";

/// Returns the command `aec`, which has no rules between its arguments. Fails only with `Memory`.
pub fn command<'a>(alloc: Global) -> Result<Command<'a>, Usage>
    ensures app { IfOk result (λ c. app_of c ≡ aec_app) }
    ensures refuses { IfErr result (λ u. u ≡ Usage.Memory) }
{
    let command = Command::new(alloc, "aec")
        .about("Codes integer samples without loss (CCSDS 121.0-B-3), decodes and edits streams.")
        .version(VERSION);
    let command = with_numbers(alloc, command)?;
    let command = with_coding(alloc, command)?;
    let command = with_storage(alloc, command)?;
    let command = with_work(alloc, command)?;
    Ok(with_files(alloc, command)?)
}

/// Returns what the words, of which the first is the program's name, say to the command. The
/// entries are those in the words. An error has a kind that `fault_of` lists, or is lack of memory.
pub fn parse<'a>(alloc: Global, words: &'a [String]) -> Result<ArgMatches<'a>, Error>
    ensures entries { IfOk result (λ m.
        rows_of (found_of m) ≡ matches_of aec_app (map string_bytes words.entry.now)) }
    ensures kinds { FailsBy (fault_of aec_app (map string_bytes words.entry.now)) result }
{
    let Ok(command) = command(alloc) else {
        return Err(Error::from(AllocError));
    };
    command.try_get_matches_from(words)
}

/// Adds the numbers of the format.
fn with_numbers<'a>(alloc: Global, command: Command<'a>) -> Result<Command<'a>, AllocError>
    ensures { IfOk result (λ c. app_of c ≡ with_rules (app_of command.entry) number_rules) }
{
    let bits = number(
        alloc,
        "bits",
        'n',
        "BITS",
        clap::value_parser!(u32),
        "bits per sample, 1 to 32 (default 8)",
    );
    let block_size = number(
        alloc,
        "block-size",
        'j',
        "SIZE",
        clap::value_parser!(u32),
        "samples per block: 8, 16, 32 or 64 (default 8)",
    );
    let interval = number(
        alloc,
        "interval",
        'r',
        "BLOCKS",
        clap::value_parser!(u32),
        "blocks per reference sample interval, 1 to 4096{n}(default 2)",
    );
    command.arg(bits)?.arg(block_size)?.arg(interval)
}

/// Adds the options of coding.
fn with_coding<'a>(alloc: Global, command: Command<'a>) -> Result<Command<'a>, AllocError>
    ensures { IfOk result (λ c. app_of c ≡ with_rules (app_of command.entry) coding_rules) }
{
    let no_preprocessing = flag(
        alloc,
        "no-preprocessing",
        'N',
        "no preprocessing: slowly changing samples{n}take more bytes",
    );
    let even_blocks = long_flag(
        alloc,
        "even-blocks",
        "-j may be any even number from 8 to 64; the{n}standard has only 8, 16, 32 and 64",
    );
    let pad = flag(
        alloc,
        "pad",
        'p',
        "fill each interval up to a byte boundary; this{n}\
         violates the standard: only for this program",
    );
    let restricted = flag(
        alloc,
        "restricted",
        't',
        "restricted set of code options, for at most{n}4 bits per sample",
    );
    command
        .arg(no_preprocessing)?
        .arg(even_blocks)?
        .arg(pad)?
        .arg(restricted)
}

/// Adds the options of storage.
fn with_storage<'a>(alloc: Global, command: Command<'a>) -> Result<Command<'a>, AllocError>
    ensures { IfOk result (λ c. app_of c ≡ with_rules (app_of command.entry) storage_rules) }
{
    let signed = flag(alloc, "signed", 's', "samples are signed");
    let msb_first = flag(
        alloc,
        "msb-first",
        'm',
        "stored samples begin with their most significant byte",
    );
    let three_byte = flag(
        alloc,
        "three-byte",
        '3',
        "stored samples of 17 to 24 bits have three bytes",
    );
    command.arg(signed)?.arg(msb_first)?.arg(three_byte)
}

/// Adds the options of the action.
fn with_work<'a>(alloc: Global, command: Command<'a>) -> Result<Command<'a>, AllocError>
    ensures { IfOk result (λ c. app_of c ≡ with_rules (app_of command.entry) work_rules) }
{
    let decode = flag(alloc, "decode", 'd', "decode SOURCE instead of coding it");
    let range = long_text(
        alloc,
        "range",
        "FIRST:LEN",
        "decode LEN samples from place FIRST on,{n}counted from 0",
    );
    let edit = long_text(
        alloc,
        "edit",
        "SCRIPT",
        "edit SOURCE, a stream, by the lines of SCRIPT",
    );
    let count = long_number(
        alloc,
        "count",
        "COUNT",
        clap::value_parser!(u64),
        "number of samples, not bytes, of a coded SOURCE;{n}\
         without it, filling samples are decoded too",
    );
    let buffer = number(
        alloc,
        "buffer",
        'b',
        "SIZE",
        clap::value_parser!(u64),
        "no effect (a buffer size in other programs)",
    );
    command
        .arg(decode)?
        .arg(range)?
        .arg(edit)?
        .arg(count)?
        .arg(buffer)
}

/// Adds the two files.
fn with_files<'a>(alloc: Global, command: Command<'a>) -> Result<Command<'a>, AllocError>
    ensures { IfOk result (λ c. app_of c ≡ with_rules (app_of command.entry) file_rules) }
{
    let source = file(alloc, "SOURCE", "the file to read");
    let dest = file(
        alloc,
        "DEST",
        "the file to write; an existing file is replaced",
    );
    command.arg(source)?.arg(dest)
}

/// Returns an option of one letter that takes no value.
fn flag<'a>(alloc: Global, id: &'a str, letter: char, help: &'a str) -> Arg<'a>
    ensures rule { rule_of result ≡ flag_rule id.entry.now letter }
    ensures local { result.global ≡ false }
{
    Arg::new(alloc, id)
        .short(letter)
        .action(ArgAction::SetTrue)
        .help(help)
}

/// Returns an option with a long name that takes no value.
fn long_flag<'a>(alloc: Global, name: &'a str, help: &'a str) -> Arg<'a>
    ensures rule { rule_of result ≡ long_flag_rule name.entry.now }
    ensures local { result.global ≡ false }
{
    let switch = Arg::new(alloc, name).action(ArgAction::SetTrue);
    switch.long(name).help(help)
}

/// Returns an option of one letter that takes a number, which the parser judges.
fn number<'a>(
    alloc: Global,
    id: &'a str,
    letter: char,
    shown: &'a str,
    parser: ValueParser<'a>,
    help: &'a str,
) -> Arg<'a>
    ensures rule { rule_of result ≡ number_rule parser.entry id.entry.now letter }
    ensures local { result.global ≡ false }
{
    Arg::new(alloc, id)
        .short(letter)
        .value_name(shown)
        .value_parser(parser)
        .help(help)
}

/// Returns an option with a long name that takes a number, which the parser judges.
fn long_number<'a>(
    alloc: Global,
    name: &'a str,
    shown: &'a str,
    parser: ValueParser<'a>,
    help: &'a str,
) -> Arg<'a>
    ensures rule { rule_of result ≡ long_number_rule parser.entry name.entry.now }
    ensures local { result.global ≡ false }
{
    Arg::new(alloc, name)
        .long(name)
        .value_name(shown)
        .value_parser(parser)
        .help(help)
}

/// Returns an option with a long name that takes a text.
fn long_text<'a>(alloc: Global, name: &'a str, value: &'a str, help: &'a str) -> Arg<'a>
    ensures rule { rule_of result ≡ long_text_rule name.entry.now }
    ensures local { result.global ≡ false }
{
    Arg::new(alloc, name)
        .long(name)
        .value_name(value)
        .help(help)
}

/// Returns a file, which must be named.
fn file<'a>(alloc: Global, id: &'a str, help: &'a str) -> Arg<'a>
    ensures rule { rule_of result ≡ file_rule id.entry.now }
    ensures local { result.global ≡ false }
{
    Arg::new(alloc, id).required(true).help(help)
}
