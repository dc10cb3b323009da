// The lines of a config, and what each of them is.
ghost use Rattle.std.specs.Prelude.{◌≡◌, ◌∷◌, ◌==◌, option_copied, option_map};
ghost use Rattle.std.specs.List.{position_or_len};
ghost use Rattle.dvc_config.specs.Line as spec;
ghost use Rattle.dvc_config.specs.Config.{begun};

use crate::piece::{before_white, between, past_white};

/// The first line, and what stands behind the line feed that ends it.
pub fn cut_line(text: &[u8]) -> (&[u8], Option<&[u8]>)
    ensures exact { spec.lines text.now ≡ result.0.now ∷ spec.lines_left (option_copied result.1) }
{
    let len = line_len(text);
    if len < text.len() {
        (without_return(&text[..len]), Some(&text[len + 1..]))
    } else {
        (text, None)
    }
}

// How many bytes stand before the first line feed.
fn line_len(text: &[u8]) -> usize
    ensures value { result ≡ position_or_len (λ b. b == 10) text.now }
{
    let mut count = 0;
    while count < text.len() && text[count] != b'\n' {
        count += 1;
    }
    count
}

// The line without the carriage return at its end.
#[tactic(auto, using(crate::proofs::LineLemmas::return_cut, crate::proofs::LineLemmas::return_kept))]
fn without_return(line: &[u8]) -> &[u8]
    ensures exact { result.now ≡ spec.without_return line.now }
{
    if line.is_empty() {
        return line;
    }
    let last = line.len() - 1;
    if line[last] == b'\r' {
        &line[..last]
    } else {
        line
    }
}

/// The text of a line without the white space at its ends.
#[tactic(auto, using(crate::proofs::LineLemmas::content_text, crate::proofs::LineLemmas::content_none))]
pub fn content(line: &[u8]) -> Option<&str>
    ensures exact { option_copied result ≡ spec.content line.now }
{
    match std::str::from_utf8(line) {
        Ok(text) => Some(before_white(past_white(text))),
        Err(_) => None,
    }
}

/// Whether it is nothing, or a comment.
pub fn is_passed(text: &str) -> bool
    ensures exact { result ≡ spec.is_passed text.now }
{
    match text.as_bytes() {
        [] => true,
        [first, ..] => *first == b'#' || *first == b';',
    }
}

/// The name of the section that begins there.
#[tactic(auto, unfolding(crate::specs::Line::section_in))]
pub fn section_in(text: &str) -> Option<&str>
    ensures exact { option_copied result ≡ spec.section_in text.now }
{
    match between(text, "[", "]") {
        Some(name) => nonempty(name),
        None => None,
    }
}

fn nonempty(name: &str) -> Option<&str>
    ensures exact { option_copied result ≡ spec.nonempty name.now }
{
    if name.is_empty() { None } else { Some(name) }
}

/// The name of the section that begins with the line.
pub fn begun(line: &[u8]) -> Option<&str>
    ensures exact { option_copied result ≡ begun line.now }
{
    match content(line) {
        Some(text) => section_in(text),
        None => None,
    }
}

/// The key and the value of a setting.
#[tactic(auto, unfolding(crate::specs::Line::setting_in))]
pub fn setting_in(text: &str) -> Option<(&str, &str)>
    ensures exact { option_map (λ s. (s.0.now, s.1.now)) result ≡ spec.setting_in text.now }
{
    match parted(text) {
        Some((key, value)) => keyed(before_white(key), past_white(value)),
        None => None,
    }
}

// What stands before the first `=`, and behind it.
fn parted(text: &str) -> Option<(&str, &str)>
    ensures exact { option_map (λ p. (p.0.now, p.1.now)) result ≡ spec.parted text.now }
{
    text.split_once('=')
}

fn keyed<'a>(key: &'a str, value: &'a str) -> Option<(&'a str, &'a str)>
    ensures exact { option_map (λ s. (s.0.now, s.1.now)) result ≡ spec.keyed key.now value.now }
{
    if key.is_empty() {
        None
    } else {
        Some((key, value))
    }
}
