//! Drawn configurations, which are read, printed and read again.

use crate::config_value::{sections, sides};
use crate::configs::read;
use eq_config::{Config, print_config};
use std::alloc::{AllocError, Global};
use std::test::Fail;

/// The next drawn number, below 2^31.
fn draw(seed: &mut u64) -> u64 {
    *seed = seed
        .wrapping_mul(6_364_136_223_846_793_005)
        .wrapping_add(1_442_695_040_888_963_407);
    *seed >> 33
}

fn blank(seed: &mut u64) -> &'static [u8] {
    match draw(seed) % 6 {
        0 => b"\n",
        1 => b"\r\n",
        2 => b" \t\n",
        3 => b"\n# c\n",
        4 => b"\n\n",
        _ => b"\n",
    }
}

fn match_line(seed: &mut u64) -> &'static [u8] {
    match draw(seed) % 8 {
        0 => b"gold-match a* ~b%1",
        1 => b"gold-match a[0-9]? %2~%1",
        2 => b"gate-match  *  ~~%1",
        3 => b" gate-match [!a]\t%~%%",
        4 => b"gold-nomatch *",
        5 => b"gate-nomatch []a]",
        6 => b"gate-match ] ~%~",
        _ => b"gold-match # #",
    }
}

fn collect_line(seed: &mut u64) -> &'static [u8] {
    match draw(seed) % 4 {
        0 => b"solo a",
        1 => b"group b*",
        2 => b"\tjoin ~",
        _ => b"group [gold]",
    }
}

fn part_line(seed: &mut u64) -> &'static [u8] {
    match draw(seed) % 4 {
        0 => b"merge a",
        1 => b"path a* b*",
        2 => b"name a? ~%1",
        _ => b"name  * n",
    }
}

fn section_line(kind: u64, seed: &mut u64) -> &'static [u8] {
    match kind {
        0 => match_line(seed),
        1 => collect_line(seed),
        _ => part_line(seed),
    }
}

fn title(kind: u64, seed: &mut u64) -> &'static [u8] {
    match (kind, draw(seed) % 2) {
        (0, 0) => b"[match]",
        (0, _) => b"[ match m? ]",
        (1, 0) => b"[collect]",
        (1, _) => b" [collect c*]",
        (_, 0) => b"[partition]",
        (_, _) => b"[partition [p]] ",
    }
}

/// A section of rules.
fn put_section(out: &mut Vec<u8>, seed: &mut u64) -> Result<(), AllocError> {
    let kind = draw(seed) % 3;
    out.extend_from_slice(title(kind, seed))?;
    out.extend_from_slice(blank(seed))?;
    for _ in 0..draw(seed) % 5 {
        out.extend_from_slice(section_line(kind, seed))?;
        out.extend_from_slice(blank(seed))?;
    }
    Ok(())
}

fn strategy(seed: &mut u64) -> &'static [u8] {
    match draw(seed) % 6 {
        0 => b"use sat",
        1 => b"depth 3\nuse  sat\nconflicts 1",
        2 => b"apply a\nuse sat\napply ~b\ndepth 64",
        3 => b"conflicts 200000\nuse sat",
        4 => b"use sat\ndepth 5\napply [a]",
        _ => b"conflicts 20000\ndepth 1\nuse sat",
    }
}

fn put_strategy(
    out: &mut Vec<u8>,
    alloc: Global,
    seed: &mut u64,
    number: u64,
) -> Result<(), AllocError> {
    let heading = format!(in alloc; "[strategy s-{number}]\n")?;
    out.extend_from_slice(heading.as_bytes())?;
    out.extend_from_slice(strategy(seed))?;
    out.extend_from_slice(blank(seed))
}

fn side(seed: &mut u64) -> &'static [u8] {
    match draw(seed) % 4 {
        0 => b"read_verilog a b c\nprep -top t",
        1 => b"prep -top -top\nread_verilog a\n\nread_verilog a",
        2 => b"read_verilog x/y.v \t z\nread_verilog #\nprep -top [t]",
        _ => b"read_verilog a-\n  prep\t-top\tt",
    }
}

fn put_side(out: &mut Vec<u8>, seed: &mut u64, title: &[u8]) -> Result<(), AllocError> {
    out.extend_from_slice(title)?;
    out.extend_from_slice(side(seed))?;
    out.extend_from_slice(blank(seed))
}

fn put_sections(out: &mut Vec<u8>, seed: &mut u64) -> Result<(), AllocError> {
    for _ in 0..draw(seed) % 6 {
        put_section(out, seed)?;
    }
    Ok(())
}

/// A configuration with sections of all kinds, gold and gate in the middle.
fn drawn(alloc: Global, first: u64) -> Result<Vec<u8>, AllocError> {
    let mut seed = first;
    let mut out = Vec::new(alloc);
    put_sections(&mut out, &mut seed)?;
    put_side(&mut out, &mut seed, b"[gate]\n")?;
    put_side(&mut out, &mut seed, b"[gold]\n")?;
    for number in 0..1u64.wrapping_add(draw(&mut seed) % 4) {
        put_strategy(&mut out, alloc, &mut seed, number)?;
    }
    put_sections(&mut out, &mut seed)?;
    Ok(out)
}

/// Whether two configurations have the same sides.
fn same_sides(alloc: Global, first: &Config, second: &Config) -> Result<bool, AllocError> {
    let first = sides(alloc, first)?;
    let second = sides(alloc, second)?;
    Ok(first.as_slice() == second.as_slice())
}

/// Whether two configurations have the same sections.
fn same_sections(alloc: Global, first: &Config, second: &Config) -> Result<bool, AllocError> {
    let first = sections(alloc, first)?;
    let second = sections(alloc, second)?;
    Ok(first.as_slice() == second.as_slice())
}

/// Whether two configurations are the same.
fn same(alloc: Global, first: &Config, second: &Config) -> Result<bool, Fail> {
    Ok(same_sides(alloc, first, second)? && same_sections(alloc, first, second)?)
}

/// Whether what is printed of a configuration is read as the same.
fn is_read_again(alloc: Global, config: &Config) -> Result<bool, Fail> {
    let printed = print_config(alloc, config)?;
    let again = read(alloc, printed.as_slice())?;
    same(alloc, config, &again)
}

/// Whether the configuration of a seed comes back.
fn comes_back(alloc: Global, seed: u64) -> Result<bool, Fail> {
    let text = drawn(alloc, seed)?;
    let config = read(alloc, &text)?;
    is_read_again(alloc, &config)
}

/// The first of some seeds whose configuration doesn't come back.
fn first_lost(alloc: Global) -> Result<Option<u64>, Fail> {
    for seed in 0..300u64 {
        if !comes_back(alloc, seed)? {
            return Ok(Some(seed));
        }
    }
    Ok(None)
}

#[test]
fn drawn_configurations_come_back(rt: HostRuntime) -> Result<(), Fail> {
    assert_eq!(rt; first_lost(rt.alloc())?, None);
    Ok(())
}
