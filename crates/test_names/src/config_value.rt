//! The value of a configuration as a text of its own, part by part.

use eq_config::{
    CollectRule, CollectSection, Config, MatchRule, MatchSection, PartRule, PartSection, Side,
    Strategy,
};
use eq_names::{Pattern, Template};
use std::alloc::{AllocError, Global};

fn put(out: &mut Vec<u8>, words: &[&[u8]]) -> Result<(), AllocError> {
    for word in words {
        out.extend_from_slice(word)?;
        out.push(b' ')?;
    }
    Ok(())
}

fn put_pattern(
    out: &mut Vec<u8>,
    alloc: Global,
    kind: &[u8],
    p: &Pattern,
) -> Result<(), AllocError> {
    let p = p.print(alloc)?;
    put(out, &[kind, p.bytes()])
}

fn put_template(out: &mut Vec<u8>, alloc: Global, t: &Template) -> Result<(), AllocError> {
    let t = t.print(alloc)?;
    put(out, &[t.bytes()])
}

fn put_sign(out: &mut Vec<u8>, inverted: bool) -> Result<(), AllocError> {
    put(out, &[if inverted { b"inverted" } else { b"same" }])
}

fn put_side(out: &mut Vec<u8>, side: &Side) -> Result<(), AllocError> {
    for file in side.files.as_slice() {
        put(out, &[file.bytes()])?;
    }
    put(out, &[b"top", side.top.bytes()])
}

fn put_match(out: &mut Vec<u8>, alloc: Global, rule: &MatchRule) -> Result<(), AllocError> {
    match rule {
        MatchRule::GoldMatch(p, t, inverted) => {
            put_pattern(out, alloc, b"GoldMatch", p)?;
            put_template(out, alloc, t)?;
            put_sign(out, *inverted)
        }
        MatchRule::GateMatch(p, t, inverted) => {
            put_pattern(out, alloc, b"GateMatch", p)?;
            put_template(out, alloc, t)?;
            put_sign(out, *inverted)
        }
        MatchRule::GoldNo(p) => put_pattern(out, alloc, b"GoldNo", p),
        MatchRule::GateNo(p) => put_pattern(out, alloc, b"GateNo", p),
    }
}

fn put_matches(out: &mut Vec<u8>, alloc: Global, section: &MatchSection) -> Result<(), AllocError> {
    put_pattern(out, alloc, b"(match", &section.top)?;
    for rule in section.rules.as_slice() {
        put_match(out, alloc, rule)?;
    }
    put(out, &[b")"])
}

fn put_collect(out: &mut Vec<u8>, alloc: Global, rule: &CollectRule) -> Result<(), AllocError> {
    match rule {
        CollectRule::Solo(p) => put_pattern(out, alloc, b"Solo", p),
        CollectRule::Group(p) => put_pattern(out, alloc, b"Group", p),
        CollectRule::Join(p) => put_pattern(out, alloc, b"Join", p),
    }
}

fn put_collects(
    out: &mut Vec<u8>,
    alloc: Global,
    section: &CollectSection,
) -> Result<(), AllocError> {
    put_pattern(out, alloc, b"(collect", &section.top)?;
    for rule in section.rules.as_slice() {
        put_collect(out, alloc, rule)?;
    }
    put(out, &[b")"])
}

fn put_part(out: &mut Vec<u8>, alloc: Global, rule: &PartRule) -> Result<(), AllocError> {
    match rule {
        PartRule::Merge(p) => put_pattern(out, alloc, b"Merge", p),
        PartRule::Path(p, q) => {
            put_pattern(out, alloc, b"Path", p)?;
            put_pattern(out, alloc, b"to", q)
        }
        PartRule::Rename(p, t) => {
            put_pattern(out, alloc, b"Rename", p)?;
            put_template(out, alloc, t)
        }
    }
}

fn put_parts(out: &mut Vec<u8>, alloc: Global, section: &PartSection) -> Result<(), AllocError> {
    put_pattern(out, alloc, b"(partition", &section.top)?;
    for rule in section.rules.as_slice() {
        put_part(out, alloc, rule)?;
    }
    put(out, &[b")"])
}

fn put_number(out: &mut Vec<u8>, alloc: Global, number: u64) -> Result<(), AllocError> {
    let text = format!(in alloc; "{number}")?;
    put(out, &[text.as_bytes()])
}

fn put_strategy(out: &mut Vec<u8>, alloc: Global, s: &Strategy) -> Result<(), AllocError> {
    put(out, &[b"(strategy", s.name.bytes()])?;
    put_number(out, alloc, u64::from(s.depth))?;
    put_number(out, alloc, s.conflicts)?;
    for p in s.apply.as_slice() {
        put_pattern(out, alloc, b"apply", p)?;
    }
    put(out, &[b")"])
}

/// The files and tops.
pub(crate) fn sides(alloc: Global, c: &Config) -> Result<Vec<u8>, AllocError> {
    let mut out = Vec::new(alloc);
    put_side(&mut out, &c.gold)?;
    put_side(&mut out, &c.gate)?;
    Ok(out)
}

/// The sections of rules and the strategies.
pub(crate) fn sections(alloc: Global, c: &Config) -> Result<Vec<u8>, AllocError> {
    let mut out = Vec::new(alloc);
    for section in c.matches.as_slice() {
        put_matches(&mut out, alloc, section)?;
    }
    for section in c.collects.as_slice() {
        put_collects(&mut out, alloc, section)?;
    }
    for section in c.partitions.as_slice() {
        put_parts(&mut out, alloc, section)?;
    }
    for s in c.strategies.as_slice() {
        put_strategy(&mut out, alloc, s)?;
    }
    Ok(out)
}
