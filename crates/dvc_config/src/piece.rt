// Pieces of a line's text.
ghost use Rattle.std.specs.Prelude.{◌≡◌, codes, option_copied};
ghost use Rattle.std.specs.Option.{option_or};
ghost use Rattle.dvc_config.specs.Line as spec;

/// The text behind the white space at its start.
#[tactic(auto, using(crate::proofs::PieceLemmas::past_step, crate::proofs::PieceLemmas::past_shorter, crate::proofs::PieceLemmas::past_end))]
pub fn past_white(mut text: &str) -> &str
    ensures exact { result.now ≡ spec.past_white text.entry.now }
{
    while let Some(rest) = past_one(text) {
        text = rest;
    }
    text
}

// The text behind the one character of white space at its start.
fn past_one(text: &str) -> Option<&str>
    ensures exact { option_copied result ≡ option_or (spec.behind (codes " ") text.now) (spec.behind (codes "\t") text.now) }
{
    match behind(text, " ") {
        Some(rest) => Some(rest),
        None => behind(text, "\t"),
    }
}

/// The text before the white space at its end.
#[tactic(auto, using(crate::proofs::PieceLemmas::before_step, crate::proofs::PieceLemmas::before_shorter, crate::proofs::PieceLemmas::before_end))]
pub fn before_white(mut text: &str) -> &str
    ensures exact { result.now ≡ spec.before_white text.entry.now }
{
    while let Some(rest) = before_one(text) {
        text = rest;
    }
    text
}

// The text before the one character of white space at its end.
fn before_one(text: &str) -> Option<&str>
    ensures exact { option_copied result ≡ option_or (spec.before (codes " ") text.now) (spec.before (codes "\t") text.now) }
{
    match before(text, " ") {
        Some(rest) => Some(rest),
        None => before(text, "\t"),
    }
}

/// What stands between the two, where the text begins with the one and ends with the other.
pub fn between<'a>(text: &'a str, front: &str, back: &str) -> Option<&'a str>
    ensures exact { option_copied result ≡ spec.between front.now back.now text.now }
{
    match behind(text, front) {
        Some(rest) => before(rest, back),
        None => None,
    }
}

// What stands behind the front, where the text begins with it.
fn behind<'a>(text: &'a str, front: &str) -> Option<&'a str>
    ensures exact { option_copied result ≡ spec.behind front.now text.now }
{
    text.strip_prefix(front)
}

// What stands before the back, where the text ends with it.
fn before<'a>(text: &'a str, back: &str) -> Option<&'a str>
    ensures exact { option_copied result ≡ spec.before back.now text.now }
{
    text.strip_suffix(back)
}
