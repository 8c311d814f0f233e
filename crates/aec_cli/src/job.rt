//! What a run of the program is asked to do.

ghost use Rattle.std.specs.Prelude.{◌≡◌, IfOk, IfErr, IsOk};
ghost use Rattle.std.specs.Result.{result_err};
ghost use Rattle.std.specs.String.{string_bytes};
ghost use Rattle.clap.specs.Matches.{found_of};
ghost use Rattle.aec_cli.specs.Jobs.{job_of, task_of, settings_of, is_given, word_of, count_of, file_of};
ghost use Rattle.aec_cli.specs.Jobs.{work_of, work_asked, action_refusal};
ghost use Rattle.aec_cli.specs.Asked.{work_meant};

use crate::usage::Usage;
use aec_engine::parse_range;
use aec_params::{Params, Settings};
use clap::ArgMatches;
use std::alloc::{AllocError, Global};

/// What a run does with its source.
#[derive(Debug, PartialEq, Eq, Drop)]
pub enum Action {
    /// Codes the samples of the source.
    Encode,
    /// Decodes the source: the first `count` samples, or all without a count.
    Decode {
        count: Option<u64>,
    },
    /// Decodes the source, and keeps `len` of these samples, from place `first` on.
    Range {
        first: u64,
        len: u64,
        count: Option<u64>,
    },
    /// Decodes the source, and codes the samples that the edits of the file `script` leave.
    Edit {
        script: String,
        count: Option<u64>,
    },
}

/// An action whose script's name isn't copied yet.
#[derive(Drop)]
enum Asked<'a> {
    Encode,
    Decode {
        count: Option<u64>,
    },
    Range {
        first: u64,
        len: u64,
        count: Option<u64>,
    },
    Edit {
        script: &'a str,
        count: Option<u64>,
    },
}

/// One run: the parameters, what is done, and the names of the file to read and of the file to
/// write.
#[derive(Debug, Drop)]
pub struct Job {
    pub params: Params,
    pub action: Action,
    pub source: String,
    pub dest: String,
}

/// Returns the job that the matches of a parse ask for. The refusals in their order: `Jobs`,
/// `Count` and `Range`, which concern the action; `Setting`; and `Memory` only if there is no
/// other.
pub fn settings(alloc: Global, matches: &ArgMatches<'_>) -> Result<Job, Usage>
    ensures ok { IfOk result (λ job. job_of (found_of matches.now) ≡ Ok (task_of job)) }
    ensures refuses { IfErr (job_of (found_of matches.now)) (λ usage. result ≡ Err usage) }
    ensures memory { IfErr result
        (λ usage. IsOk (job_of (found_of matches.now)) → usage ≡ Usage.Memory) }
{
    let asked = asked_action(matches)?;
    let params = Params::new(asked_settings(matches)).map_err(Usage::Setting)?;
    let action = kept_action(alloc, asked)?;
    let source = file_name(alloc, matches, "SOURCE")?;
    let dest = file_name(alloc, matches, "DEST")?;
    Ok(Job {
        params,
        action,
        source,
        dest,
    })
}

/// Returns the settings, each with its default if it is not given.
#[tactic(auto, unfolding(crate::specs::Jobs::settings_of))]
fn asked_settings(matches: &ArgMatches<'_>) -> Settings
    ensures { result ≡ settings_of (found_of matches.now) }
{
    Settings {
        bits: number(matches, "bits", Settings::USUAL.bits),
        block_size: number(matches, "block-size", Settings::USUAL.block_size),
        interval: number(matches, "interval", Settings::USUAL.interval),
        signed: has_flag(matches, "signed"),
        msb_first: has_flag(matches, "msb-first"),
        three_byte: has_flag(matches, "three-byte"),
        preprocess: !has_flag(matches, "no-preprocessing"),
        pad: has_flag(matches, "pad"),
        restricted: has_flag(matches, "restricted"),
        even_blocks: has_flag(matches, "even-blocks"),
    }
}

/// Returns the action that the words ask for. Fails with the first rule of actions that is broken.
#[tactic(auto, unfolding(crate::specs::Jobs::work_asked, crate::specs::Jobs::action_refusal, crate::specs::Jobs::actions_given, crate::specs::Jobs::range_of))]
fn asked_action<'a>(matches: &'a ArgMatches<'_>) -> Result<Asked<'a>, Usage>
    ensures ok { IfOk result (λ asked. work_meant asked ≡ work_asked (found_of matches.now)) }
    ensures refuses { result_err result ≡ action_refusal (found_of matches.now) }
{
    let count = sample_count(matches);
    match (
        has_flag(matches, "decode"),
        matches.get_str("range"),
        matches.get_str("edit"),
    ) {
        (true, None, None) => Ok(Asked::Decode { count }),
        (false, Some(text), None) => {
            let (first, len) = parse_range(text).ok_or(Usage::Range)?;
            Ok(Asked::Range { first, len, count })
        }
        (false, None, Some(script)) => Ok(Asked::Edit { script, count }),
        (false, None, None) if count.is_some() => Err(Usage::Count),
        (false, None, None) => Ok(Asked::Encode),
        _ => Err(Usage::Jobs),
    }
}

/// Returns the action `asked`, with a copy of its script's name if it is an edit. Fails if the
/// allocation fails.
fn kept_action(alloc: Global, asked: Asked<'_>) -> Result<Action, AllocError>
    ensures { IfOk result (λ action. work_of action ≡ work_meant asked.entry) }
{
    Ok(match asked {
        Asked::Encode => Action::Encode,
        Asked::Decode { count } => Action::Decode { count },
        Asked::Range { first, len, count } => Action::Range { first, len, count },
        Asked::Edit { script, count } => Action::Edit {
            script: String::from_str(alloc, script)?,
            count,
        },
    })
}

/// Returns whether the flag `id` is given.
#[tactic(auto, unfolding(crate::specs::Jobs::is_given))]
fn has_flag(matches: &ArgMatches<'_>, id: &str) -> bool
    ensures { result ≡ is_given id.now (found_of matches.now) }
{
    match matches.get_str(id) {
        Some(text) => text == "true",
        None => false,
    }
}

/// Returns the number of the option `id`, or `default` if it isn't given.
fn number(matches: &ArgMatches<'_>, id: &str, default: u32) -> u32
    ensures { result ≡ word_of default id.now (found_of matches.now) }
{
    matches.get_one::<u32>(id).unwrap_or(default)
}

/// Returns the number of `--count`, if it is given.
fn sample_count(matches: &ArgMatches<'_>) -> Option<u64>
    ensures { result ≡ count_of (found_of matches.now) }
{
    matches.get_one::<u64>("count")
}

/// Returns a copy of the name of the file `id`. Fails if the allocation fails.
#[tactic(auto, unfolding(crate::specs::Jobs::file_of))]
fn file_name(alloc: Global, matches: &ArgMatches<'_>, id: &str) -> Result<String, AllocError>
    ensures { IfOk result (λ name. string_bytes name ≡ file_of id.now (found_of matches.now)) }
{
    match matches.get_str(id) {
        Some(name) => String::from_str(alloc, name),
        None => Ok(String::new(alloc)),
    }
}
