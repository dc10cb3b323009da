// The words of a command line: what they ask for.
ghost use Rattle.std.specs.Prelude.{◌≡◌, ◌<◌, ◌++◌, length, count_by, IfOk, IfSome, OnOk};
ghost use Rattle.std.specs.List.{list_all, list_any};
ghost use Rattle.dvc_cli.specs.Words as spec;
ghost use Rattle.dvc_cli.specs.Words.{IsAsked, asked, is_end, is_force, is_target, is_option, are_options, targets_in, repro_of};

use dvc_base::{Fault, NoMemory, Plain, Text, Texts};
use std::alloc::Global;

/// What a command line asks for.
#[derive(Drop)]
pub(crate) enum Request {
    /// The turns of the stages that the targets choose and of all above them; those of all stages where there is no target.
    Repro {
        /// Whether each of these stages is run, whatever is remembered of it.
        force: bool,
        targets: Texts,
    },
}

/// What the words behind the program's name ask for.
pub(crate) fn read_words(alloc: Global, words: &Texts) -> Result<Request, Fault>
    ensures exact { IsAsked result (asked words.now) }
{
    match words.as_slice() {
        [command, rest @ ..] => {
            if command.as_str() != "repro" {
                return Err(Fault::BadWords);
            }
            read_repro(alloc, rest)
        }
        [] => Err(Fault::BadWords),
    }
}

// The words are looked at before one is copied, so that want of memory never hides that they are refused.
fn read_repro(alloc: Global, words: &[Text]) -> Result<Request, Fault>
    ensures exact { IsAsked result (repro_of words.now) }
{
    let (options, behind) = cut(words);
    if !are_options(options) {
        return Err(Fault::BadWords);
    }
    match targets_of(alloc, options, behind) {
        Ok(targets) => Ok(Request::Repro {
            force: has_force(options),
            targets,
        }),
        Err(_) => Err(Fault::NoMemory),
    }
}

// The words before and behind the one that ends the options.
fn cut(words: &[Text]) -> (&[Text], &[Text])
    ensures options { result.0.now ≡ spec.options words.now }
    ensures behind { result.1.now ≡ spec.behind words.now }
{
    match end_of(words) {
        Some(end) => (&words[..end], &words[end + 1..]),
        None => (words, &[]),
    }
}

fn end_of(words: &[Text]) -> Option<usize>
    ensures exact { result ≡ spec.end_of words.now }
    ensures within { IfSome result (λ end. end < length words.now) }
{
    words.iter().position(|word| is_end(word))
}

fn are_options(words: &[Text]) -> bool
    ensures exact { result ≡ are_options words.now }
{
    is_each_option(words) && count_force(words) < 2
}

fn is_each_option(words: &[Text]) -> bool
    ensures exact { result ≡ list_all is_option words.now }
{
    words.iter().all(|word| is_option(word))
}

fn count_force(words: &[Text]) -> usize
    ensures exact { result ≡ count_by is_force words.now }
{
    words.iter().filter(|word| is_force(word)).count()
}

fn has_force(words: &[Text]) -> bool
    ensures exact { result ≡ list_any is_force words.now }
{
    words.iter().any(|word| is_force(word))
}

// ---- one word

fn is_end(word: &Text) -> bool
    ensures exact { result ≡ is_end word.now }
{
    word.as_str() == "--"
}

fn is_option(word: &Text) -> bool
    ensures exact { result ≡ is_option word.now }
{
    is_force(word) || is_target(word)
}

fn is_force(word: &Text) -> bool
    ensures exact { result ≡ is_force word.now }
{
    word.as_str() == "-f" || word.as_str() == "--force"
}

// A word that begins with `-` is an option, but for that alone.
fn is_target(word: &Text) -> bool
    ensures exact { result ≡ is_target word.now }
{
    match word.as_str().as_bytes() {
        [first, _, ..] => *first != b'-',
        _ => true,
    }
}

// ---- targets

fn targets_of(alloc: Global, options: &[Text], behind: &[Text]) -> Result<Texts, NoMemory>
    ensures exact { IfOk result (λ targets. targets ≡ targets_in options.now ++ behind.now) }
{
    let mut targets = Texts::new(alloc);
    push_targets(alloc, options, &mut targets)?;
    push_all(alloc, behind, &mut targets)?;
    Ok(targets)
}

fn push_targets(alloc: Global, words: &[Text], targets: &mut Texts) -> Result<(), NoMemory>
    ensures ok { OnOk result (targets.new ≡ targets.old ++ targets_in words.now) }
{
    for word in words {
        if is_target(word) {
            targets.push(word.copy(alloc)?)?;
        }
    }
    Ok(())
}

fn push_all(alloc: Global, words: &[Text], targets: &mut Texts) -> Result<(), NoMemory>
    ensures ok { OnOk result (targets.new ≡ targets.old ++ words.now) }
{
    for word in words {
        targets.push(word.copy(alloc)?)?;
    }
    Ok(())
}
