//! Words, the jobs that they ask for, and printed texts.

use crate::asserts::{holds, holds_at, same, same_at};
use crate::shared::{DEFAULTS, job_by, job_of, run_of, words_of};
use aec_cli::{Action, EditFault, Failure, StartFault, Usage, perform, status};
use aec_params::{Fault, Params, Settings};
use std::io;
use std::io::Write;
use std::test::Fail;

// Words, and the settings that they ask for.
const OPTIONS: [(&str, Settings); 14] = [
    ("in out", DEFAULTS),
    (
        "-n 20 in out",
        Settings {
            bits: 20,
            ..DEFAULTS
        },
    ),
    (
        "-j 64 in out",
        Settings {
            block_size: 64,
            ..DEFAULTS
        },
    ),
    (
        "-r 4096 in out",
        Settings {
            interval: 4096,
            ..DEFAULTS
        },
    ),
    (
        "-n8 -s in out",
        Settings {
            signed: true,
            ..DEFAULTS
        },
    ),
    (
        "-n8 -m in out",
        Settings {
            msb_first: true,
            ..DEFAULTS
        },
    ),
    (
        "-n8 -3 in out",
        Settings {
            three_byte: true,
            ..DEFAULTS
        },
    ),
    (
        "-n8 -N in out",
        Settings {
            preprocess: false,
            ..DEFAULTS
        },
    ),
    (
        "-n8 -p in out",
        Settings {
            pad: true,
            ..DEFAULTS
        },
    ),
    (
        "-n4 -t in out",
        Settings {
            bits: 4,
            restricted: true,
            ..DEFAULTS
        },
    ),
    (
        "--even-blocks -j 10 in out",
        Settings {
            block_size: 10,
            even_blocks: true,
            ..DEFAULTS
        },
    ),
    ("-b 18446744073709551615 in out", DEFAULTS),
    ("-r2 -j8 in out", DEFAULTS),
    ("in -r 2 out", DEFAULTS),
];

#[test]
fn each_option_has_its_setting(rt: HostRuntime) -> Result<(), Fail> {
    for (words, expected) in OPTIONS.iter() {
        let job = job_of(rt.alloc(), words)??;
        same_at(&rt, job.params, Params::new(*expected)?, &words);
        same_at(&rt, job.action, Action::Encode, &words);
    }
    Ok(())
}

// Words with the usual settings, and the action that they ask for, from `in` to `out`.
const ACTIONS: [(&str, Action); 8] = [
    ("-d in out", Action::Decode { count: None }),
    ("in -d out", Action::Decode { count: None }),
    (
        "--range 2:3 -n 8 in out",
        Action::Range {
            first: 2,
            len: 3,
            count: None,
        },
    ),
    (
        "--range=2:3 --count=5 -n 8 in out",
        Action::Range {
            first: 2,
            len: 3,
            count: Some(5),
        },
    ),
    (
        "--count 0 --range 0:0 in out",
        Action::Range {
            first: 0,
            len: 0,
            count: Some(0),
        },
    ),
    (
        "--range 18446744073709551615:18446744073709551615 -n 8 in out",
        Action::Range {
            first: u64::MAX,
            len: u64::MAX,
            count: None,
        },
    ),
    (
        "-d --count 18446744073709551615 -n8 in out",
        Action::Decode {
            count: Some(u64::MAX),
        },
    ),
    ("--count 5 -d -n8 in out", Action::Decode { count: Some(5) }),
];

#[test]
fn a_job_has_its_action_and_files(rt: HostRuntime) -> Result<(), Fail> {
    for (words, action) in ACTIONS.iter() {
        let job = job_of(rt.alloc(), words)??;
        holds_at(&rt, job.action == *action, words);
        same_at(&rt, job.params, Params::new(DEFAULTS)?, &words);
        same(&rt, job.source.as_str(), "in");
        same(&rt, job.dest.as_str(), "out");
    }
    Ok(())
}

// Words of edits, the script that they name, and the count.
const EDITS: [(&str, &str, Option<u64>); 4] = [
    ("--edit lines in out", "lines", None),
    ("in --edit=-d out", "-d", None),
    ("--edit in --count 48 in out", "in", Some(48)),
    ("--count=0 -n 8 in out --edit out", "out", Some(0)),
];

fn is_edit(action: &Action, name: &str, given: Option<u64>) -> bool {
    match action {
        Action::Edit { script, count } => script.as_str() == name && *count == given,
        _ => false,
    }
}

#[test]
fn an_edit_has_its_script_and_count(rt: HostRuntime) -> Result<(), Fail> {
    for (words, script, count) in EDITS.iter() {
        let job = job_of(rt.alloc(), words)??;
        holds_at(&rt, is_edit(&job.action, script, *count), words);
        same(&rt, job.source.as_str(), "in");
        same(&rt, job.dest.as_str(), "out");
    }
    Ok(())
}

#[test]
fn a_range_is_two_numbers_and_a_colon(rt: HostRuntime) -> Result<(), Fail> {
    let texts = [
        "1:2:3",
        "1:2:",
        "3",
        ":3",
        "1:",
        ":",
        "",
        "18446744073709551616:0",
        "0:18446744073709551616",
        "+1:2",
        "1:+2",
        "1:-2",
        " 1:2",
        "1: 2",
        "1:2 ",
        "1 :2",
        "1;2",
        "0x1:2",
        "1:2a",
        "a:1",
        "\u{661}:2",
    ];
    for text in texts {
        let refusal = job_by(rt.alloc(), &["aec", "--range", text, "a", "b"])?.err();
        same_at(&rt, refusal, Some(Usage::Range), &text);
    }
    Ok(())
}

// Failures, their texts, and the statuses of runs that end with them.
const FAILURES: [(Failure, &str, u8); 10] = [
    (
        Failure::Usage(Usage::Setting(Fault::BlockSize)),
        "block size must be 8, 16, 32 or 64",
        2,
    ),
    (
        Failure::Usage(Usage::Setting(Fault::EvenBlockSize)),
        "block size must be even, 8 to 64",
        2,
    ),
    (
        Failure::Usage(Usage::Jobs),
        "only one of -d, --range and --edit may be given",
        2,
    ),
    (
        Failure::Usage(Usage::Count),
        "--count needs -d, --range or --edit",
        2,
    ),
    (Failure::Usage(Usage::Range), "--range needs FIRST:LEN", 2),
    (Failure::Usage(Usage::Memory), "out of memory", 1),
    (Failure::Fault(Fault::Read), "read failed", 1),
    (
        Failure::Fault(Fault::Truncated { bit: 13 }),
        "coded data is cut short at bit 13",
        1,
    ),
    (
        Failure::Edit(EditFault::Plain(Fault::Script { line: 2 })),
        "script line 2 is not an edit",
        1,
    ),
    (
        Failure::Edit(EditFault::Line {
            line: 1,
            fault: Fault::SampleRange { index: 0 },
        }),
        "line 1: sample 0 is out of range",
        1,
    ),
];

#[test]
fn failures_have_their_texts(rt: HostRuntime) -> Result<(), Fail> {
    for (failure, text, expected) in FAILURES {
        same(&rt, failure.to_string(rt.alloc())?.as_str(), text);
        same_at(&rt, status(&failure), expected, &text);
    }
    Ok(())
}

#[test]
fn start_faults_have_their_texts(rt: HostRuntime) -> Result<(), Fail> {
    let cases = [
        (
            StartFault::Stream,
            "a standard stream is closed and /dev/null can't be opened",
        ),
        (StartFault::Words, "words must be UTF-8 text"),
        (StartFault::Memory, "out of memory"),
    ];
    for (fault, text) in cases {
        same(&rt, fault.to_string(rt.alloc())?.as_str(), text);
    }
    Ok(())
}

#[test]
fn help_goes_to_standard_output(rt: HostRuntime) -> Result<(), Fail> {
    let (status, out, err) = run_of(&rt, rt.alloc(), "--help")?;
    same(&rt, (status, err.len()), (0, 0));
    let text = str::from_utf8(out.as_slice())?;
    holds(&rt, text.contains("Usage: aec [OPTIONS] <SOURCE> <DEST>\n"));
    holds(
        &rt,
        text.contains("violates the standard: only for this program\n"),
    );
    for option in [
        "--range <FIRST:LEN>",
        "--count <COUNT>",
        "--even-blocks",
        "--version",
        "--help",
    ] {
        holds_at(&rt, text.contains(option), &option);
    }
    for line in text.lines() {
        holds_at(&rt, line.chars().count() <= 80, &line);
    }
    Ok(())
}

#[test]
fn the_version_goes_to_standard_output(rt: HostRuntime) -> Result<(), Fail> {
    for word in ["--version", "-V"] {
        let (status, out, err) = run_of(&rt, rt.alloc(), word)?;
        same(&rt, (status, err.len()), (0, 0));
        same(&rt, out.as_slice(), b"aec 1.1.0\n".as_slice());
    }
    Ok(())
}

// A stream on which every write fails.
#[derive(Drop)]
struct Broken;

impl Write for Broken {
    fn write(&mut self, _buf: &[u8]) -> io::Result<usize> {
        Err(io::Error::from(io::ErrorKind::BrokenPipe))
    }

    fn flush(&mut self) -> io::Result<()> {
        Ok(())
    }
}

#[test]
fn broken_streams_change_no_status(rt: HostRuntime) -> Result<(), Fail> {
    for (words, expected) in [("a b --help", 0), ("a b -x", 2), ("a b -n40", 2)] {
        let words = words_of(rt.alloc(), words)?;
        same(
            &rt,
            perform(&rt, rt.alloc(), words, &mut Broken, &mut Broken),
            expected,
        );
    }
    Ok(())
}
