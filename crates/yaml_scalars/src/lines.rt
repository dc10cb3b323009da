// Block scalars.
ghost use Rattle.std.specs.Prelude.{◌≡◌, ◌<◌, ◌≤◌, ◌+◌, ◌++◌, false, true, length, replicate, IfOk, IfErr, ◌-◌, ◌^◌, ◌⊎◌};
ghost use Rattle.yaml_text.specs.Characters.{line_feed};
ghost use Rattle.yaml_text.specs.Outcome.{IsRefused, Reads};
ghost use Rattle.yaml_text.specs.Line.{past_spaces};
ghost use Rattle.yaml_scalars.specs.Lines as spec;

use crate::plain::{push_breaks, push_lines};
use dvc_base::Text;
use std::alloc::Global;
use yaml_text::{
    Halt, behind, byte, is_bad, is_white, past_spaces, rest_of_line, spaces, split_first, syntax,
    text_of,
};

/// What becomes of the line feeds at a block scalar's end.
#[derive(Clone, Copy)]
pub enum Ending {
    Clip,
    Strip,
    Keep,
}

/// How the last line that isn't empty begins, if there is one.
#[derive(Clone, Copy)]
pub enum Last {
    Nothing,
    Flush,
    Spaced,
}

// The text from the first line on that has a character other than a space.
fn filled_line(mut text: &[u8]) -> &[u8]
    ensures value { result.now ≡ spec.filled_line_from text.entry.now text.entry.now }
    ensures within { length result.now ≤ length text.entry.now }
{
    let mut start = text;
    while let [first, rest @ ..] = text {
        if *first == b'\n' {
            start = rest;
        } else if *first != b' ' {
            return start;
        }
        text = rest;
    }
    text
}

// How many spaces are taken from each line.
#[tactic(auto, unfolding(crate::specs::Lines::margin))]
fn margin(least: usize, text: &[u8]) -> usize
    ensures { result ≡ spec.margin least text.now }
{
    margin_by(least, text.len(), filled_line(text))
}

fn margin_by(least: usize, most: usize, first: &[u8]) -> usize
    ensures { result ≡ spec.margin_by least most first.now }
{
    let indentation = spaces(first);
    match first {
        [] => most,
        [_, ..] => {
            if indentation < least {
                most
            } else {
                indentation
            }
        }
    }
}

// How many empty lines there are, of at most `most` spaces alone, and the text behind them.
#[tactic(auto, unfolding(crate::specs::Lines::empty_lines))]
fn empty_lines(most: usize, mut text: &[u8]) -> (usize, &[u8])
    ensures value { (result.0, result.1.now) ≡ spec.empty_lines most text.entry.now }
    ensures within { result.0 + length result.1.now ≤ length text.entry.now }
{
    let mut start = text;
    let mut count = 0;
    let mut indentation = 0;
    while let [first, rest @ ..] = text {
        if *first == b'\n' {
            if most < indentation {
                return (count, start);
            }
            count += 1;
            indentation = 0;
            start = rest;
        } else if *first == b' ' {
            indentation += 1;
        } else {
            return (count, start);
        }
        text = rest;
    }
    last_empty(most, count, indentation, start, text)
}

// At the text's end: a last line of few spaces is one more empty line.
fn last_empty<'a>(
    most: usize,
    count: usize,
    indentation: usize,
    start: &'a [u8],
    end: &'a [u8],
) -> (usize, &'a [u8])
    requires none { length end.now ≡ 0 }
    requires room { count + indentation < 2 ^ 64 }
    ensures value { (result.0, result.1.now) ≡ spec.empty_from most count indentation start.now end.now }
    ensures within { result.0 + length result.1.now ≤ count + indentation ⊎ result.1.now ≡ start.now }
{
    if most < indentation {
        (count, start)
    } else if indentation == 0 {
        (count, end)
    } else {
        (count + 1, end)
    }
}

// Adds one line feed more than this many.
fn push_one_more(found: &mut Vec<u8>, count: usize) -> Result<(), Halt>
    ensures ok { IfOk result (λ _. found.new.items ≡ found.old.items ++ replicate (count + 1) line_feed) }
    ensures err { IfErr result (λ halt. halt ≡ Halt.NoMemory) }
{
    found.push(b'\n')?;
    push_lines(found, count)
}

// Adds what stands between two lines with this many empty ones between them.
fn push_between(
    found: &mut Vec<u8>,
    folding: bool,
    last: Last,
    next: Last,
    count: usize,
) -> Result<(), Halt>
    ensures ok { IfOk result (λ _. found.new.items ≡ found.old.items ++ spec.between folding last next count) }
    ensures err { IfErr result (λ halt. halt ≡ Halt.NoMemory) }
{
    match last {
        Last::Nothing => push_lines(found, count),
        Last::Flush => match next {
            Last::Flush => {
                if folding {
                    push_breaks(found, count)
                } else {
                    push_one_more(found, count)
                }
            }
            _ => push_one_more(found, count),
        },
        Last::Spaced => push_one_more(found, count),
    }
}

// Adds what this many empty lines at the end give.
fn push_ending(found: &mut Vec<u8>, style: Ending, last: Last, count: usize) -> Result<(), Halt>
    ensures ok { IfOk result (λ _. found.new.items ≡ found.old.items ++ spec.ending style last count) }
    ensures err { IfErr result (λ halt. halt ≡ Halt.NoMemory) }
{
    match style {
        Ending::Strip => Ok(()),
        Ending::Clip => match last {
            Last::Nothing => Ok(()),
            _ => push_lines(found, 1),
        },
        Ending::Keep => match last {
            Last::Nothing => push_lines(found, count),
            _ => push_one_more(found, count),
        },
    }
}

fn last_of(line: &[u8]) -> Last
    ensures { result ≡ spec.last_of line.now }
{
    if is_white(byte(line, 0)) {
        Last::Spaced
    } else {
        Last::Flush
    }
}

fn line_len(text: &[u8]) -> usize
    ensures value { result ≡ spec.line_len text.now }
    ensures within { result ≤ length text.now }
{
    let mut len = 0;
    while len < text.len() && !(text[len] == b'\n' || is_bad(text[len])) {
        len += 1;
    }
    len
}

// Behind a line's characters: its line feed, or the end.
fn past_break(text: &[u8]) -> Result<&[u8], Halt>
    ensures exact { Reads (λ rest. rest.now) result (spec.past_break text.now) }
    ensures within { IfOk result (λ rest. length rest.now ≤ length text.now) }
    ensures shorter { IfOk result (λ rest. 0 < length text.now → length rest.now < length text.now) }
    ensures refused { IfErr result IsRefused }
{
    match split_first(text) {
        None => Ok(text),
        Some((first, rest)) => {
            if first == b'\n' {
                Ok(rest)
            } else {
                Err(syntax(text))
            }
        }
    }
}

// A line that isn't empty, without its indentation.
#[tactic(auto, unfolding(crate::specs::Lines::with_line))]
fn with_line<'a>(
    folding: bool,
    found: &mut Vec<u8>,
    last: Last,
    count: usize,
    line: &'a [u8],
) -> Result<(bool, Last, &'a [u8]), Halt>
    ensures exact { Reads (λ r. (r.0, ((found.new.items, r.1), r.2.now))) result (spec.with_line folding (found.old.items, last) count line.now) }
    ensures within { IfOk result (λ r. length r.2.now ≤ length line.now) }
    ensures shorter { IfOk result (λ r. 0 < length line.now → length r.2.now < length line.now) }
{
    let next = last_of(line);
    let (part, rest) = line.split_at(line_len(line));
    let rest = past_break(rest)?;
    push_between(found, folding, last, next, count)?;
    found.extend_from_slice(part)?;
    Ok((false, next, rest))
}

// The last turn: what the empty lines at the end give.
fn last_turn<'a>(
    style: Ending,
    found: &mut Vec<u8>,
    last: Last,
    count: usize,
    text: &'a [u8],
) -> Result<(bool, Last, &'a [u8]), Halt>
    ensures exact { Reads (λ r. (r.0, ((found.new.items, r.1), r.2.now))) result (spec.last_turn style (found.old.items, last) count text.now) }
    ensures within { IfOk result (λ r. (r.0 ≡ true) × (r.2.now ≡ text.now)) }
{
    push_ending(found, style, last, count)?;
    Ok((true, last, text))
}

// A line of more spaces than the margin alone, which no line with another character may follow.
fn spaced_line<'a>(
    folding: bool,
    most: usize,
    found: &mut Vec<u8>,
    last: Last,
    count: usize,
    start: &'a [u8],
) -> Result<(bool, Last, &'a [u8]), Halt>
    requires { 0 < length start.now }
    ensures exact { Reads (λ r. (r.0, ((found.new.items, r.1), r.2.now))) result (spec.spaced_line folding most (found.old.items, last) count start.now) }
    ensures shorter { IfOk result (λ r. length r.2.now < length start.now) }
{
    match last {
        Last::Nothing => Err(syntax(start)),
        _ => with_line(folding, found, last, count, behind(start, most)),
    }
}

// A line that isn't empty, at its start: how deep it is decides.
fn line_by_indentation<'a>(
    folding: bool,
    style: Ending,
    least: usize,
    most: usize,
    found: &mut Vec<u8>,
    last: Last,
    count: usize,
    start: &'a [u8],
) -> Result<(bool, Last, &'a [u8]), Halt>
    requires { 0 < length start.now }
    ensures exact { Reads (λ r. (r.0, ((found.new.items, r.1), r.2.now))) result (spec.line_by_indentation folding style least most (found.old.items, last) count start.now (past_spaces start.now)) }
    ensures within { IfOk result (λ r. length r.2.now ≤ length start.now) }
    ensures shorter { IfOk result (λ r. r.0 ≡ false → length r.2.now < length start.now) }
{
    let inner = past_spaces(start);
    let indentation = spaces(start);
    match split_first(inner) {
        None => spaced_line(folding, most, found, last, count, start),
        Some((first, _)) => {
            if first == b'\n' {
                spaced_line(folding, most, found, last, count, start)
            } else if indentation < least {
                last_turn(style, found, last, count, start)
            } else if indentation < most {
                Err(syntax(inner))
            } else {
                with_line(folding, found, last, count, behind(start, most))
            }
        }
    }
}

// One turn: the empty lines that follow, and the line behind them.
#[tactic(auto, unfolding(crate::specs::Lines::line_turn))]
fn line_turn<'a>(
    folding: bool,
    style: Ending,
    least: usize,
    most: usize,
    found: &mut Vec<u8>,
    last: Last,
    text: &'a [u8],
) -> Result<(bool, Last, &'a [u8]), Halt>
    ensures exact { Reads (λ r. (r.0, ((found.new.items, r.1), r.2.now))) result (spec.line_turn folding style least most (found.old.items, last) text.now) }
    ensures within { IfOk result (λ r. length r.2.now ≤ length text.now) }
    ensures shorter { IfOk result (λ r. r.0 ≡ false → length r.2.now < length text.now) }
{
    let (count, start) = empty_lines(most, text);
    if start.len() == 0 {
        last_turn(style, found, last, count, start)
    } else {
        line_by_indentation(folding, style, least, most, found, last, count, start)
    }
}

// The lines below the header.
#[tactic(auto, unfolding(crate::specs::Lines::lines_below))]
fn lines_below(
    alloc: Global,
    folding: bool,
    style: Ending,
    least: usize,
    text: &[u8],
) -> Result<(Text, &[u8]), Halt>
    ensures exact { Reads (λ r. (r.0, r.1.now)) result (spec.lines_below folding style least text.now) }
    ensures within { IfOk result (λ r. length r.1.now ≤ length text.now) }
{
    let most = margin(least, text);
    let mut found = Vec::new(alloc);
    let mut last = Last::Nothing;
    let mut rest = text;
    loop {
        let (is_end, next, left) = line_turn(folding, style, least, most, &mut found, last, rest)?;
        last = next;
        rest = left;
        if is_end {
            return Ok((text_of(alloc, found.as_slice())?, rest));
        }
    }
}

fn style_of(text: &[u8]) -> Ending
    ensures { result ≡ spec.style_of text.now }
{
    match byte(text, 0) {
        b'-' => Ending::Strip,
        b'+' => Ending::Keep,
        _ => Ending::Clip,
    }
}

fn past_style(text: &[u8]) -> &[u8]
    ensures value { result.now ≡ spec.past_style text.now }
    ensures within { length result.now ≤ length text.now }
{
    if byte(text, 0) == b'-' || byte(text, 0) == b'+' {
        behind(text, 1)
    } else {
        text
    }
}

/// The block scalar, read from behind its `|`, or where it is folded its `>`. What is left begins a line.
#[tactic(auto, unfolding(crate::specs::Lines::lines))]
pub fn block_scalar(
    alloc: Global,
    folding: bool,
    least: usize,
    text: &[u8],
) -> Result<(Text, &[u8]), Halt>
    ensures exact { Reads (λ r. (r.0, r.1.now)) result (spec.lines folding least text.now) }
    ensures within { IfOk result (λ r. length r.1.now ≤ length text.now) }
{
    let below = rest_of_line(false, past_style(text))?;
    lines_below(alloc, folding, style_of(text), least, below)
}
