//! Scripts, and the edits that their lines ask for.

use crate::asserts::{same, same_at};
use aec_engine::{Script, script};
use aec_params::{Edit, Fault};
use std::alloc::Global;
use std::fmt::Write;
use std::test::Fail;

// Returns each edit with its line, as `LINE NAME NUMBER..;`.
fn shown(alloc: Global, script: &Script) -> Result<String, Fail> {
    let mut text = String::new(alloc);
    for (edit, line) in script.edits.iter().zip(script.lines.iter()) {
        write!(text, "{line} ")?;
        match edit {
            Edit::Overwrite { first, values } => {
                write!(text, "overwrite {first}")?;
                show_values(&mut text, values.as_slice())?;
            }
            Edit::Append { values } => {
                write!(text, "append")?;
                show_values(&mut text, values.as_slice())?;
            }
            Edit::Truncate { count } => write!(text, "truncate {count}")?,
            Edit::Insert { first, values } => {
                write!(text, "insert {first}")?;
                show_values(&mut text, values.as_slice())?;
            }
            Edit::Remove { first, len } => write!(text, "remove {first} {len}")?,
        }
        write!(text, ";")?;
    }
    Ok(text)
}

fn show_values(text: &mut String, values: &[i64]) -> Result<(), Fail> {
    for value in values {
        write!(text, " {value}")?;
    }
    Ok(())
}

// Scripts, and their edits.
const READ: [(&str, &str); 30] = [
    ("", ""),
    ("\n\n", ""),
    ("\r", ""),
    (" \t \r\n\t", ""),
    (
        "# p\noverwrite 20 1 -2\nappend\ntruncate 5\n",
        "2 overwrite 20 1 -2;3 append;4 truncate 5;",
    ),
    ("append 007 -0\r", "1 append 7 0;"),
    ("append 1\r\nappend 2\r\n", "1 append 1;2 append 2;"),
    ("append 1\nappend 2", "1 append 1;2 append 2;"),
    ("\t append\t1 \t 2\t", "1 append 1 2;"),
    ("  # append 1\n#append 2\n#\nappend 3", "4 append 3;"),
    ("overwrite 3", "1 overwrite 3;"),
    (
        "overwrite 18446744073709551615 1",
        "1 overwrite 18446744073709551615 1;",
    ),
    (
        "overwrite 00000000000000000000000000000004 1",
        "1 overwrite 4 1;",
    ),
    (
        "truncate 18446744073709551615",
        "1 truncate 18446744073709551615;",
    ),
    ("truncate 0", "1 truncate 0;"),
    (
        "append -9223372036854775808",
        "1 append -9223372036854775808;",
    ),
    (
        "append 9223372036854775807",
        "1 append 9223372036854775807;",
    ),
    ("append -000", "1 append 0;"),
    ("append", "1 append;"),
    ("append \r", "1 append;"),
    ("append 1\n\r", "1 append 1;"),
    ("append 1\n \n\nappend 2\n", "1 append 1;4 append 2;"),
    ("insert 0", "1 insert 0;"),
    (
        "# p\ninsert 20 1 -2\nremove 3 5\n",
        "2 insert 20 1 -2;3 remove 3 5;",
    ),
    ("\tinsert  007 \t-0 \r", "1 insert 7 0;"),
    (
        "insert 18446744073709551615 -9223372036854775808",
        "1 insert 18446744073709551615 -9223372036854775808;",
    ),
    ("remove 0 0", "1 remove 0 0;"),
    (" remove\t00  007\t\r\n", "1 remove 0 7;"),
    (
        "remove 0 18446744073709551615",
        "1 remove 0 18446744073709551615;",
    ),
    (
        "remove 18446744073709551615 18446744073709551615",
        "1 remove 18446744073709551615 18446744073709551615;",
    ),
];

// Calls `script`, and keeps its clauses out of the callers' proofs.
fn read(alloc: Global, text: &[u8]) -> Result<Script, Fault> {
    script(alloc, text)
}

#[test]
fn edits_stand_on_their_lines(rt: HostRuntime) -> Result<(), Fail> {
    for (text, edits) in READ {
        let read = read(rt.alloc(), text.as_bytes())?;
        same_at(&rt, shown(rt.alloc(), &read)?.as_str(), edits, &text);
    }
    Ok(())
}

// Scripts, and the number of their first line that is no edit.
const REFUSED: [(&str, u64); 42] = [
    ("append 1\n\ntruncate x\n", 3),
    ("overwrite", 1),
    ("overwrite x 1", 1),
    ("overwrite -1 1", 1),
    ("overwrite 18446744073709551616", 1),
    ("truncate", 1),
    ("truncate 1 2", 1),
    ("truncate 18446744073709551616", 1),
    ("truncate +1", 1),
    ("Append 1", 1),
    ("append +1", 1),
    ("append - 1", 1),
    ("append -", 1),
    ("append --1", 1),
    ("append 1 # one", 1),
    ("append 1.0", 1),
    ("append 1,2", 1),
    ("append 9223372036854775808", 1),
    ("append -9223372036854775809", 1),
    ("appendix 1", 1),
    ("append 1\r\r\nappend 2", 1),
    ("append 1\rappend 2", 1),
    ("append 1\n\u{b}\n", 2),
    ("append 1\nappend \0", 2),
    ("insert", 1),
    ("insert x 1", 1),
    ("insert -1 1", 1),
    ("insert +1 1", 1),
    ("insert 18446744073709551616", 1),
    ("insert 0 9223372036854775808", 1),
    ("insert 0 1 x", 1),
    ("Insert 0 1", 1),
    ("inserts 0 1", 1),
    ("insert 0\n\ninsert", 3),
    ("remove", 1),
    ("remove 1", 1),
    ("remove 1 2 3", 1),
    ("remove -1 1", 1),
    ("remove 1 -1", 1),
    ("remove 0 18446744073709551616", 1),
    ("remove 18446744073709551616 0", 1),
    ("remove 0 0\nREMOVE 0 0", 2),
];

#[test]
fn the_first_bad_line_is_named(rt: HostRuntime) -> Result<(), Fail> {
    for (text, line) in REFUSED {
        let refusal = read(rt.alloc(), text.as_bytes()).err();
        same_at(&rt, refusal, Some(Fault::Script { line }), &text);
    }
    let no_text = read(rt.alloc(), b"append 1\nappend \xFF").err();
    same(&rt, no_text, Some(Fault::Script { line: 2 }));
    Ok(())
}

// What comes before a text, the text, how often it is repeated, and what comes after it; then the
// number of edits, of the last one's line and of the values that the first one appends; or, if
// there are no edits, the line that is refused.
const LONG: [(&str, &str, usize, &str, usize, u64, usize); 3] = [
    ("", "\n", 65536, "append x", 0, 65537, 0),
    ("append", " -7", 100_000, "", 1, 1, 100_000),
    ("", "truncate 0\n", 1_000_000, "", 1_000_000, 1_000_000, 0),
];

/// Returns how many values an edit appends.
fn appended(edit: Option<&Edit>) -> usize {
    match edit {
        Some(Edit::Append { values }) => values.as_slice().len(),
        _ => 0,
    }
}

#[test]
fn long_scripts_are_read(rt: HostRuntime) -> Result<(), Fail> {
    for (front, text, times, end, edits, line, values) in &LONG {
        let mut bytes = front.as_bytes().to_vec(rt.alloc())?;
        for _ in 0..*times {
            bytes.extend_from_slice(text.as_bytes())?;
        }
        bytes.extend_from_slice(end.as_bytes())?;
        match read(rt.alloc(), &bytes) {
            Ok(script) => {
                same_at(&rt, script.edits.len(), *edits, text);
                same_at(&rt, script.lines.last(), Some(line), text);
                same_at(&rt, appended(script.edits.first()), *values, text);
            }
            Err(fault) => {
                same_at(&rt, fault, Fault::Script { line: *line }, text);
                same_at(&rt, *edits, 0, text);
            }
        }
    }
    Ok(())
}
