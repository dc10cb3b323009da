// The templates of a text, one after another.
ghost use Rattle.std.specs.Prelude.{◌≡◌, ◌≢◌, ℕ, List, [], ◌∷◌, ◌++◌, false, map, codes, option_copied, option_map, MatchOption};
ghost use Rattle.std.specs.List.{list_any};
ghost use Rattle.template_vars.specs.Template as spec;
ghost use Rattle.template_vars.specs.Template.{Byte, Key};
ghost use Rattle.template_vars.specs.Turn.{IsTurn, IsOpen, closed_part, is_dollar};

use crate::spaces::trimmed;

/// A text up to its first dollar sign, or to the end of the key that begins there.
#[derive(Drop)]
pub struct Turn<'a> {
    /// What stands for itself.
    pub plain: &'a str,
    /// What stands for itself behind it: nothing, a dollar sign, or one with a brace.
    pub mark: &'static str,
    /// The key behind that.
    pub key: Option<&'a str>,
    /// What is left.
    pub rest: &'a str,
    /// Whether a `}` may stand in what is left. Where none does, none is looked for again.
    pub closes: bool,
}

/// The first turn of a text, if it has a dollar sign.
pub fn next_turn(text: &str, closes: bool) -> Option<Turn<'_>>
    requires { IsOpen text.now closes }
    ensures turn { MatchOption result
        (spec.pieces text.now ≡ map Byte text.now)
        (λ turn. IsTurn text.now turn.plain.now turn.mark.now (option_copied turn.key) turn.rest.now turn.closes) }
{
    match text.split_once('$') {
        Some((plain, behind)) => Some(turn_at(plain, behind, closes)),
        None => None,
    }
}

// The turn of a text with a dollar sign between these two.
fn turn_at<'a>(plain: &'a str, behind: &'a str, closes: bool) -> Turn<'a>
    requires plain { list_any is_dollar plain.now ≡ false }
    requires left { IsOpen behind.now closes }
    ensures turn { IsTurn (plain.now ++ 36 ∷ behind.now)
        result.plain.now result.mark.now (option_copied result.key) result.rest.now result.closes }
{
    match behind.strip_prefix('{') {
        Some(inner) => brace_turn(plain, inner, closes),
        None => Turn {
            plain,
            mark: "$",
            key: None,
            rest: behind,
            closes,
        },
    }
}

// The turn of a text with `${` between these two. Behind a backslash it stands for itself.
fn brace_turn<'a>(plain: &'a str, inner: &'a str, closes: bool) -> Turn<'a>
    requires plain { list_any is_dollar plain.now ≡ false }
    requires left { IsOpen inner.now closes }
    ensures turn { IsTurn (plain.now ++ 36 ∷ 123 ∷ inner.now)
        result.plain.now result.mark.now (option_copied result.key) result.rest.now result.closes }
{
    match plain.strip_suffix('\\') {
        Some(front) => Turn {
            plain: front,
            mark: "${",
            key: None,
            rest: inner,
            closes,
        },
        None => key_turn(plain, inner, closes),
    }
}

// The same where no backslash stands before it: a key, or `${` itself where it isn't closed.
fn key_turn<'a>(plain: &'a str, inner: &'a str, closes: bool) -> Turn<'a>
    requires plain { list_any is_dollar plain.now ≡ false }
    requires bare { (front : List ℕ) → plain.now ≢ front ++ 92 ∷ [] }
    requires left { IsOpen inner.now closes }
    ensures turn { IsTurn (plain.now ++ 36 ∷ 123 ∷ inner.now)
        result.plain.now result.mark.now (option_copied result.key) result.rest.now result.closes }
{
    match closed_part(inner, closes) {
        Some((key, rest)) => Turn {
            plain,
            mark: "",
            key: Some(trimmed(key)),
            rest,
            closes,
        },
        None => Turn {
            plain,
            mark: "${",
            key: None,
            rest: inner,
            closes: false,
        },
    }
}

// What stands before the first `}`, and behind it.
fn closed_part(text: &str, closes: bool) -> Option<(&str, &str)>
    requires { IsOpen text.now closes }
    ensures exact { option_map (λ p. (p.0.now, p.1.now)) result ≡ closed_part text.now }
{
    if closes { text.split_once('}') } else { None }
}

/// The key of a text that is one `${key}` whole.
pub fn whole_key(text: &str) -> Option<&str>
    ensures exact { option_copied result ≡ spec.whole_key text.now }
{
    match text.strip_prefix("${") {
        Some(inner) => whole_part(inner),
        None => None,
    }
}

// The same of what stands behind `${`.
fn whole_part(inner: &str) -> Option<&str>
    ensures exact { option_copied result ≡ spec.whole_key (36 ∷ 123 ∷ inner.now) }
{
    match closed_part(inner, true) {
        Some((key, rest)) => key_alone(key, rest),
        None => None,
    }
}

#[tactic(auto, using(crate::proofs::PieceLemmas::alone_end, crate::proofs::PieceLemmas::alone_more))]
fn key_alone<'a>(key: &'a str, rest: &str) -> Option<&'a str>
    ensures exact { option_copied result ≡ spec.key_alone (Key (spec.trimmed key.now) ∷ spec.pieces rest.now) }
{
    if rest.is_empty() {
        Some(trimmed(key))
    } else {
        None
    }
}

/// Whether a `${` stands somewhere in the text.
pub fn has_template(text: &str) -> bool
    ensures exact { result ≡ spec.has_template text.now }
{
    let mut rest = text.as_bytes();
    while let [_, behind @ ..] = rest {
        if begins_template(rest) {
            return true;
        }
        rest = behind;
    }
    false
}

fn begins_template(text: &[u8]) -> bool
    ensures exact { result ≡ spec.begins (codes "${") text.now }
{
    text.strip_prefix(b"${").is_some()
}
