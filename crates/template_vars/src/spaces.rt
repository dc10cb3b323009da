// The spaces at the ends of a text.
ghost use Rattle.std.specs.Prelude.{◌≡◌};
ghost use Rattle.template_vars.specs.Template as spec;

/// The text without the spaces at its ends.
pub fn trimmed(text: &str) -> &str
    ensures exact { result.now ≡ spec.trimmed text.now }
{
    before_spaces(past_spaces(text))
}

#[tactic(auto, using(crate::proofs::SpaceLemmas::past_step, crate::proofs::SpaceLemmas::past_end))]
fn past_spaces(mut text: &str) -> &str
    ensures exact { result.now ≡ spec.past_spaces text.entry.now }
{
    while let Some(rest) = text.strip_prefix(' ') {
        text = rest;
    }
    text
}

#[tactic(auto, using(crate::proofs::SpaceLemmas::before_step, crate::proofs::SpaceLemmas::before_end))]
fn before_spaces(mut text: &str) -> &str
    ensures exact { result.now ≡ spec.before_spaces text.entry.now }
{
    while let Some(rest) = text.strip_suffix(' ') {
        text = rest;
    }
    text
}
