//! Files that are refused.

use crate::making::{bytes, is_told};
use eq_base::Memory;
use eq_config::ConfigKind;
use eq_report::{Refusal, TextFault};
use eq_vlex::LexKind;
use std::alloc::Global;
use std::test::Fail;

/// A file, a line, what is wrong there, and what is told.
type Row = (&'static str, u32, TextFault, &'static str);

static ROWS: [Row; 19] = [
    (
        "job.eqy",
        2,
        TextFault::Config(ConfigKind::NotAscii),
        "eqy: job.eqy:2: NotAscii\n",
    ),
    (
        "job.eqy",
        1,
        TextFault::Config(ConfigKind::NoSection),
        "eqy: job.eqy:1: NoSection\n",
    ),
    (
        "job.eqy",
        1,
        TextFault::Config(ConfigKind::UnknownSection),
        "eqy: job.eqy:1: UnknownSection\n",
    ),
    (
        "job.eqy",
        10,
        TextFault::Config(ConfigKind::UnknownLine),
        "eqy: job.eqy:10: UnknownLine\n",
    ),
    (
        "a/b.eqy",
        12,
        TextFault::Config(ConfigKind::BadWord),
        "eqy: a/b.eqy:12: BadWord\n",
    ),
    (
        "./gen",
        9,
        TextFault::Config(ConfigKind::BadNumber),
        "eqy: ./gen:9: BadNumber\n",
    ),
    (
        "job.eqy",
        100,
        TextFault::Config(ConfigKind::Twice),
        "eqy: job.eqy:100: Twice\n",
    ),
    (
        "job.eqy",
        4_103,
        TextFault::Config(ConfigKind::TooMany),
        "eqy: job.eqy:4103: TooMany\n",
    ),
    (
        "job.eqy",
        7,
        TextFault::Config(ConfigKind::Missing),
        "eqy: job.eqy:7: Missing\n",
    ),
    (
        "gold.v",
        1,
        TextFault::Lex(LexKind::BadByte),
        "eqy: gold.v:1: BadByte\n",
    ),
    (
        "gold.v",
        2,
        TextFault::Lex(LexKind::OpenComment),
        "eqy: gold.v:2: OpenComment\n",
    ),
    (
        "gold.v",
        3,
        TextFault::Lex(LexKind::OpenAttribute),
        "eqy: gold.v:3: OpenAttribute\n",
    ),
    (
        "gold.v",
        4,
        TextFault::Lex(LexKind::BadNumber),
        "eqy: gold.v:4: BadNumber\n",
    ),
    (
        "gold.v",
        3,
        TextFault::Lex(LexKind::XValue),
        "eqy: gold.v:3: XValue\n",
    ),
    (
        "gold.v",
        67_108_865,
        TextFault::Lex(LexKind::TooWide),
        "eqy: gold.v:67108865: TooWide\n",
    ),
    ("gate.v", 1, TextFault::Syntax, "eqy: gate.v:1: Syntax\n"),
    (
        "gate.v",
        4_294_967_295,
        TextFault::Syntax,
        "eqy: gate.v:4294967295: Syntax\n",
    ),
    (
        "gate.v",
        20,
        TextFault::TooDeep,
        "eqy: gate.v:20: TooDeep\n",
    ),
    ("", 1, TextFault::Syntax, "eqy: :1: Syntax\n"),
];

fn is_right(alloc: Global, row: &Row) -> Result<bool, Memory> {
    let refusal = Refusal::Text {
        name: bytes(alloc, row.0)?,
        line: row.1,
        fault: row.2,
    };
    is_told(alloc, &refusal, row.3)
}

/// The first row that is told otherwise.
fn first_wrong(alloc: Global) -> Result<Option<usize>, Memory> {
    for (place, row) in ROWS.iter().enumerate() {
        if !is_right(alloc, row)? {
            return Ok(Some(place));
        }
    }
    Ok(None)
}

#[test]
fn lines_of_files_are_named_with_what_is_wrong(rt: HostRuntime) -> Result<(), Fail> {
    assert_eq!(rt; first_wrong(rt.alloc())?, None);
    Ok(())
}

fn is_absent_told(alloc: Global) -> Result<bool, Memory> {
    let name = bytes(alloc, "gate.v")?;
    let line = "eqy: gate.v: no such file\n";
    is_told(alloc, &Refusal::Absent { name }, line)
}

fn is_length_told(alloc: Global) -> Result<bool, Memory> {
    let name = bytes(alloc, "gate.v")?;
    let line = "eqy: gate.v: longer than 67108864 bytes\n";
    is_told(alloc, &Refusal::TooLong { name }, line)
}

fn are_files_told(alloc: Global) -> Result<bool, Memory> {
    Ok(is_absent_told(alloc)? && is_length_told(alloc)?)
}

#[test]
fn a_file_that_is_absent_or_too_long_is_named(rt: HostRuntime) -> Result<(), Fail> {
    assert_eq!(rt; are_files_told(rt.alloc())?, true);
    Ok(())
}

#[test]
fn refused_words_get_the_usage(rt: HostRuntime) -> Result<(), Fail> {
    let usage =
        "eqy: usage: eqy [-j N] [-d DIR] [-r] [-x] [--json NAME] FILE | eqy gen SEED SIZE\n";
    assert_eq!(rt; is_told(rt.alloc(), &Refusal::Words, usage)?, true);
    Ok(())
}
