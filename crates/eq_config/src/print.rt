//! Writes a configuration as a text, section by section.

ghost use Rattle.std.specs.Prelude.{◌≡◌, ◌++◌, codes, OnOk, IfOk, map};
ghost use Rattle.std.specs.List.{flat_map};
ghost use Rattle.eq_config.specs.Configs.{HasConfig, IsConfig};
ghost use Rattle.eq_config.specs.Printing as spec;

use crate::config::{
    CollectRule, CollectSection, Config, MatchRule, MatchSection, PartRule, PartSection, Side,
    Strategy,
};
use crate::put::{
    put_heading, put_number, put_path, put_pattern, put_rename, put_section, put_title, put_word,
    put_words,
};
use eq_base::{Bytes, Memory};
use eq_names::{Name, Pattern};
use std::alloc::Global;

/// Writes a file of a side.
fn put_file(out: &mut Bytes, file: &Name) -> Result<(), Memory>
    ensures { OnOk result (out.new ≡ out.old ++ spec.ended (spec.file_line file.now)) }
{
    put_word(out, b"read_verilog", file.bytes())
}

/// Writes the files of a side, each on a line.
fn put_files(out: &mut Bytes, files: &[Name]) -> Result<(), Memory>
    ensures { OnOk result (out.new ≡ out.old ++ spec.text_of (map spec.file_line files.now)) }
{
    for file in files {
        put_file(out, file)?;
    }
    Ok(())
}

/// Writes the section of a side.
fn put_side(out: &mut Bytes, title: &[u8], side: &Side) -> Result<(), Memory>
    ensures { OnOk result (out.new ≡ out.old ++ spec.text_of (spec.side_lines title.now side.now)) }
{
    put_title(out, title)?;
    put_files(out, side.files.as_slice())?;
    put_words(out, b"prep", b"-top", side.top.bytes())
}

/// Writes a match rule.
fn put_match_rule(out: &mut Bytes, alloc: Global, rule: &MatchRule) -> Result<(), Memory>
    ensures { OnOk result (out.new ≡ out.old ++ spec.ended (spec.match_line rule.now)) }
{
    match rule {
        MatchRule::GoldMatch(p, t, inverted) => put_rename(
            out,
            alloc,
            b"gold-match",
            p,
            t,
            *inverted,
        ),
        MatchRule::GateMatch(p, t, inverted) => put_rename(
            out,
            alloc,
            b"gate-match",
            p,
            t,
            *inverted,
        ),
        MatchRule::GoldNo(p) => put_pattern(out, alloc, b"gold-nomatch", p),
        MatchRule::GateNo(p) => put_pattern(out, alloc, b"gate-nomatch", p),
    }
}

fn put_match_rules(out: &mut Bytes, alloc: Global, rules: &[MatchRule]) -> Result<(), Memory>
    ensures { OnOk result (out.new ≡ out.old ++ spec.text_of (map spec.match_line rules.now)) }
{
    for rule in rules {
        put_match_rule(out, alloc, rule)?;
    }
    Ok(())
}

fn put_match(out: &mut Bytes, alloc: Global, section: &MatchSection) -> Result<(), Memory>
    ensures { OnOk result (out.new ≡ out.old ++ spec.text_of (spec.match_lines section.now)) }
{
    put_section(out, alloc, b"match", &section.top)?;
    put_match_rules(out, alloc, section.rules.as_slice())
}

fn put_matches(out: &mut Bytes, alloc: Global, sections: &[MatchSection]) -> Result<(), Memory>
    ensures { OnOk result (out.new ≡ out.old
        ++ spec.text_of (flat_map spec.match_lines sections.now)) }
{
    for section in sections {
        put_match(out, alloc, section)?;
    }
    Ok(())
}

/// Writes a collect rule.
fn put_collect_rule(out: &mut Bytes, alloc: Global, rule: &CollectRule) -> Result<(), Memory>
    ensures { OnOk result (out.new ≡ out.old ++ spec.ended (spec.collect_line rule.now)) }
{
    match rule {
        CollectRule::Solo(p) => put_pattern(out, alloc, b"solo", p),
        CollectRule::Group(p) => put_pattern(out, alloc, b"group", p),
        CollectRule::Join(p) => put_pattern(out, alloc, b"join", p),
    }
}

fn put_collect_rules(out: &mut Bytes, alloc: Global, rules: &[CollectRule]) -> Result<(), Memory>
    ensures { OnOk result (out.new ≡ out.old ++ spec.text_of (map spec.collect_line rules.now)) }
{
    for rule in rules {
        put_collect_rule(out, alloc, rule)?;
    }
    Ok(())
}

fn put_collect(out: &mut Bytes, alloc: Global, section: &CollectSection) -> Result<(), Memory>
    ensures { OnOk result (out.new ≡ out.old ++ spec.text_of (spec.collect_lines section.now)) }
{
    put_section(out, alloc, b"collect", &section.top)?;
    put_collect_rules(out, alloc, section.rules.as_slice())
}

fn put_collects(out: &mut Bytes, alloc: Global, sections: &[CollectSection]) -> Result<(), Memory>
    ensures { OnOk result (out.new ≡ out.old
        ++ spec.text_of (flat_map spec.collect_lines sections.now)) }
{
    for section in sections {
        put_collect(out, alloc, section)?;
    }
    Ok(())
}

/// Writes a partition rule.
fn put_part_rule(out: &mut Bytes, alloc: Global, rule: &PartRule) -> Result<(), Memory>
    ensures { OnOk result (out.new ≡ out.old ++ spec.ended (spec.part_line rule.now)) }
{
    match rule {
        PartRule::Merge(p) => put_pattern(out, alloc, b"merge", p),
        PartRule::Path(from, to) => put_path(out, alloc, b"path", from, to),
        PartRule::Rename(p, t) => put_rename(out, alloc, b"name", p, t, false),
    }
}

fn put_part_rules(out: &mut Bytes, alloc: Global, rules: &[PartRule]) -> Result<(), Memory>
    ensures { OnOk result (out.new ≡ out.old ++ spec.text_of (map spec.part_line rules.now)) }
{
    for rule in rules {
        put_part_rule(out, alloc, rule)?;
    }
    Ok(())
}

fn put_part(out: &mut Bytes, alloc: Global, section: &PartSection) -> Result<(), Memory>
    ensures { OnOk result (out.new ≡ out.old ++ spec.text_of (spec.part_lines section.now)) }
{
    put_section(out, alloc, b"partition", &section.top)?;
    put_part_rules(out, alloc, section.rules.as_slice())
}

fn put_parts(out: &mut Bytes, alloc: Global, sections: &[PartSection]) -> Result<(), Memory>
    ensures { OnOk result (out.new ≡ out.old
        ++ spec.text_of (flat_map spec.part_lines sections.now)) }
{
    for section in sections {
        put_part(out, alloc, section)?;
    }
    Ok(())
}

fn put_apply(out: &mut Bytes, alloc: Global, patterns: &[Pattern]) -> Result<(), Memory>
    ensures { OnOk result (out.new ≡ out.old ++ spec.text_of (map spec.apply_line patterns.now)) }
{
    for p in patterns {
        put_pattern(out, alloc, b"apply", p)?;
    }
    Ok(())
}

/// Writes what a strategy uses and its limits.
fn put_limits(out: &mut Bytes, s: &Strategy) -> Result<(), Memory>
    ensures { OnOk result (out.new ≡ out.old ++ spec.text_of (spec.limit_lines s.now)) }
{
    put_word(out, b"use", b"sat")?;
    put_number(out, b"depth", u64::from(s.depth))?;
    put_number(out, b"conflicts", s.conflicts)
}

/// Writes the section of a strategy.
fn put_strategy(out: &mut Bytes, alloc: Global, s: &Strategy) -> Result<(), Memory>
    ensures { OnOk result (out.new ≡ out.old ++ spec.text_of (spec.strategy_lines s.now)) }
{
    put_heading(out, b"strategy", s.name.bytes())?;
    put_limits(out, s)?;
    put_apply(out, alloc, s.apply.as_slice())
}

fn put_strategies(out: &mut Bytes, alloc: Global, strategies: &[Strategy]) -> Result<(), Memory>
    ensures { OnOk result (out.new ≡ out.old
        ++ spec.text_of (flat_map spec.strategy_lines strategies.now)) }
{
    for s in strategies {
        put_strategy(out, alloc, s)?;
    }
    Ok(())
}

/// Writes the sections of rules.
fn put_rules(out: &mut Bytes, alloc: Global, c: &Config) -> Result<(), Memory>
    ensures { OnOk result (out.new ≡ out.old ++ spec.text_of (spec.rule_lines c.now)) }
{
    put_matches(out, alloc, c.matches.as_slice())?;
    put_collects(out, alloc, c.collects.as_slice())?;
    put_parts(out, alloc, c.partitions.as_slice())
}

/// Writes all sections.
fn put_config(out: &mut Bytes, alloc: Global, c: &Config) -> Result<(), Memory>
    ensures { OnOk result (out.new ≡ out.old ++ spec.printed c.now) }
{
    put_side(out, b"gold", &c.gold)?;
    put_side(out, b"gate", &c.gate)?;
    put_rules(out, alloc, c)?;
    put_strategies(out, alloc, c.strategies.as_slice())
}

/// The text of a configuration: sections gold, gate, match, collect, partition and strategy, with each default written
/// out. What is printed of the configuration of a text has this configuration again.
pub fn print_config(alloc: Global, c: &Config) -> Result<Bytes, Memory>
    ensures text { IfOk result (λ b. b ≡ spec.printed c.now) }
    ensures back { IfOk result (λ b. IsConfig c.now → HasConfig b c.now) }
{
    let mut out = Bytes::new(alloc);
    put_config(&mut out, alloc, c)?;
    Ok(out)
}
