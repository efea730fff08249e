//! The nine lines of a configuration of the first form, read one after the other.

ghost use Rattle.std.specs.Prelude.{◌≡◌, ◌==◌, ℕ, position, option_map};
ghost use Rattle.std.specs.List.{list_all};
ghost use Rattle.eq_first.specs.Lines.{line_at, after as after_of, behind_at, fixed_at, side_at, unclosed, strategy_at, depth_of, depth_at, design_at, job_at, is_name_byte, is_short, is_file, is_strategy_byte, is_strategy};
ghost use Rattle.eq_first.specs.JobWords.{side_of, job_of};

/// A file and a module, as they stand in a text.
#[derive(Clone, Copy)]
pub(crate) struct SideWords<'a> {
    pub file: &'a [u8],
    pub top: &'a [u8],
}

/// A job, as it stands in a text.
#[derive(Clone, Copy)]
pub(crate) struct JobWords<'a> {
    pub gold: SideWords<'a>,
    pub gate: SideWords<'a>,
    pub strategy: &'a [u8],
    pub depth: u32,
}

/// The place of the first line feed.
fn feed_at(text: &[u8]) -> Option<usize>
    ensures { result ≡ position (λ b. b == 10) text.now }
{
    text.iter().position(|byte| *byte == b'\n')
}

/// The line at the front without its end, and what follows it.
#[tactic(auto, unfolding(crate::specs::Lines::line_at))]
fn line(text: &[u8]) -> Option<(&[u8], &[u8])>
    ensures { option_map (λ r. (r.0.now, r.1.now)) result ≡ line_at text.now }
{
    let at = feed_at(text)?;
    Some((&text[..at], &text[at + 1..]))
}

/// What follows these bytes.
#[tactic(auto, unfolding(crate::specs::Lines::after))]
fn after<'a>(text: &'a [u8], words: &[u8]) -> Option<&'a [u8]>
    ensures { option_map (λ r. r.now) result ≡ after_of words.now text.now }
{
    text.strip_prefix(words)
}

/// What the line at the front has behind these bytes, and what follows that line.
#[tactic(auto, unfolding(crate::specs::Lines::behind_at))]
fn behind<'a>(text: &'a [u8], words: &[u8]) -> Option<(&'a [u8], &'a [u8])>
    ensures { option_map (λ r. (r.0.now, r.1.now)) result ≡ behind_at words.now text.now }
{
    let (first, rest) = line(text)?;
    let tail = after(first, words)?;
    Some((tail, rest))
}

/// What follows the line at the front, which is this one.
#[tactic(auto, unfolding(crate::specs::Lines::fixed_at))]
fn fixed<'a>(text: &'a [u8], words: &[u8]) -> Option<&'a [u8]>
    ensures { option_map (λ r. r.now) result ≡ fixed_at words.now text.now }
{
    let (tail, rest) = behind(text, words)?;
    if !tail.is_empty() {
        return None;
    }
    Some(rest)
}

fn has_name_bytes(text: &[u8]) -> bool
    ensures { result ≡ list_all is_name_byte text.now }
{
    text.iter().all(|byte| (0x21..=0x7E).contains(byte))
}

#[tactic(auto, unfolding(crate::specs::Lines::is_short))]
pub(crate) fn is_name(text: &[u8]) -> bool
    ensures { result ≡ is_short text.now }
{
    !text.is_empty() && text.len() <= 1024 && has_name_bytes(text)
}

#[tactic(auto, unfolding(crate::specs::Lines::is_file, crate::specs::Lines::is_short))]
fn is_file_name(text: &[u8]) -> bool
    ensures { result ≡ is_file text.now }
{
    is_name(text) && text[0] != b'-'
}

fn has_strategy_bytes(text: &[u8]) -> bool
    ensures { result ≡ list_all is_strategy_byte text.now }
{
    text.iter().all(|byte| matches!(*byte, b'0'..=b'9' | b'A'..=b'Z' | b'a'..=b'z' | b'_' | b'-'))
}

#[tactic(auto, unfolding(crate::specs::Lines::is_strategy))]
fn is_strategy_name(text: &[u8]) -> bool
    ensures { result ≡ is_strategy text.now }
{
    !text.is_empty() && text.len() <= 1024 && has_strategy_bytes(text)
}

/// The two lines of a side, without its heading.
#[tactic(auto, unfolding(crate::specs::Lines::side_at))]
fn side_lines(text: &[u8]) -> Option<(SideWords<'_>, &[u8])>
    ensures { option_map (λ r. (side_of r.0, r.1.now)) result ≡ side_at text.now }
{
    let (file, rest) = behind(text, b"read_verilog ")?;
    let (top, rest) = behind(rest, b"prep -top ")?;
    if !is_file_name(file) {
        return None;
    }
    if !is_name(top) {
        return None;
    }
    Some((SideWords { file, top }, rest))
}

/// The bytes before a `]` at the end.
#[tactic(auto, unfolding(crate::specs::Lines::unclosed))]
fn before_bracket(text: &[u8]) -> Option<&[u8]>
    ensures { option_map (λ r. r.now) result ≡ unclosed text.now }
{
    let (last, front) = text.split_last()?;
    if *last != b']' {
        return None;
    }
    Some(front)
}

#[tactic(auto, unfolding(crate::specs::Lines::strategy_at))]
fn strategy_line(text: &[u8]) -> Option<(&[u8], &[u8])>
    ensures { option_map (λ r. (r.0.now, r.1.now)) result ≡ strategy_at text.now }
{
    let (tail, rest) = behind(text, b"[strategy ")?;
    let name = before_bracket(tail)?;
    if !is_strategy_name(name) {
        return None;
    }
    Some((name, rest))
}

/// 1 to 64 without a leading zero.
#[tactic(auto, unfolding(crate::specs::Lines::depth_of))]
fn depth_number(digits: &[u8]) -> Option<u32>
    ensures { result ≡ depth_of digits.now }
{
    match digits {
        [ones @ b'1'..=b'9'] => Some(u32::from(*ones - b'0')),
        [tens @ b'1'..=b'6', ones @ b'0'..=b'9'] => {
            let depth = 10 * u32::from(*tens - b'0') + u32::from(*ones - b'0');
            (depth <= 64).then_some(depth)
        }
        _ => None,
    }
}

/// The last line, and nothing after it.
#[tactic(auto, unfolding(crate::specs::Lines::depth_at))]
fn depth_line(text: &[u8]) -> Option<u32>
    ensures { result ≡ depth_at text.now }
{
    let (digits, rest) = behind(text, b"depth ")?;
    let depth = depth_number(digits)?;
    if !rest.is_empty() {
        return None;
    }
    Some(depth)
}

/// A heading and the two lines under it.
#[tactic(auto, unfolding(crate::specs::Lines::design_at))]
fn design<'a>(text: &'a [u8], heading: &[u8]) -> Option<(SideWords<'a>, &'a [u8])>
    ensures { option_map (λ r. (side_of r.0, r.1.now)) result ≡ design_at heading.now text.now }
{
    let rest = fixed(text, heading)?;
    side_lines(rest)
}

/// The words of a whole text.
#[tactic(auto, unfolding(crate::specs::Lines::job_at))]
pub(crate) fn words(text: &[u8]) -> Option<JobWords<'_>>
    ensures { option_map job_of result ≡ job_at text.now }
{
    let (gold, rest) = design(text, b"[gold]")?;
    let (gate, rest) = design(rest, b"[gate]")?;
    let (strategy, rest) = strategy_line(rest)?;
    let rest = fixed(rest, b"use sat")?;
    let depth = depth_line(rest)?;
    Some(JobWords {
        gold,
        gate,
        strategy,
        depth,
    })
}
