// A rule that answers a few commands as `sh` does.
ghost use Rattle.std.specs.Prelude.{◌≡◌, ◌==◌, ◌∷◌, ◌++◌, ◌<◌, ◌^◌, [], length, map, pos, IfOk, OnOk, IfSome};
ghost use Rattle.std.specs.List.{slice_split, list_all};
ghost use Rattle.sim_world.specs.Answer.{found};
ghost use Rattle.sim_world.specs.declared.value.Value.TheVariants.{File};
ghost use Rattle.sim_world.specs.Pipe.{IsStep, is_digit, is_word_byte, is_word, number_from, number_of, leave_code, with_value, is_out, source, fill, copy, copied, copy_whole, copied_whole, print, leave, is_fill, is_copy, is_print, of_two, of_four, of_five, of_words, pipe};

use crate::value::find_value;
use crate::{Given, Made, PathValue, PathValues, Rule, Value};
use dvc_base::{Bytes, NoMemory, Plain, Text};
use std::alloc::{AllocError, Global};
use world_api::Exit;

/// Knows `cat P`, `cat P > Q`, `copy P > Q`, `printf %s X > Q` and `exit N`.
#[derive(Clone, Copy, Debug)]
pub struct Pipe;

impl Rule for Pipe {
    ghost effect = { pipe };

    fn answer(alloc: Global, given: &Given, made: &mut Made) -> Result<Exit, NoMemory> {
        let words = words_of(alloc, given.command.as_str())?;
        answer_words(alloc, words.as_slice(), given, made)
    }
}

fn words_of<'a>(alloc: Global, text: &'a str) -> Result<Vec<&'a str>, AllocError>
    ensures split { IfOk result (λ words. map (λ word. word.now) words.items ≡ slice_split (λ byte. byte == 32) text.now) }
{
    text.split(' ').collect(alloc)
}

#[tactic(auto, using(crate::proofs::PipeLemmas::other_words))]
fn answer_words(
    alloc: Global,
    words: &[&str],
    given: &Given,
    made: &mut Made,
) -> Result<Exit, NoMemory>
    ensures told { IsStep (of_words (map (λ word. word.now) words.now) given.now made.old) result made.new }
{
    match words {
        [name, arg] => answer_two(alloc, name, arg, given, made),
        [name, from, arrow, to] => answer_four(alloc, name, from, arrow, to, given, made),
        [name, format, text, arrow, to] => {
            answer_five(alloc, name, format, text, arrow, to, given, made)
        }
        _ => Ok(Exit { code: 127 }),
    }
}

fn answer_two(
    alloc: Global,
    name: &str,
    arg: &str,
    given: &Given,
    made: &mut Made,
) -> Result<Exit, NoMemory>
    ensures told { IsStep (of_two name.now arg.now given.now made.old) result made.new }
{
    if is_fill(name, arg) {
        return answer_fill(alloc, arg, given, made);
    }
    if name == "exit" {
        return Ok(exit_of(arg));
    }
    Ok(Exit { code: 127 })
}

fn answer_four(
    alloc: Global,
    name: &str,
    from: &str,
    arrow: &str,
    to: &str,
    given: &Given,
    made: &mut Made,
) -> Result<Exit, NoMemory>
    ensures told { IsStep (of_four name.now from.now arrow.now to.now given.now made.old) result made.new }
{
    if is_copy("cat", name, from, arrow, to) {
        return answer_copy(alloc, from, to, given, made);
    }
    if is_copy("copy", name, from, arrow, to) {
        return answer_whole(alloc, from, to, given, made);
    }
    Ok(Exit { code: 127 })
}

fn answer_five(
    alloc: Global,
    name: &str,
    format: &str,
    text: &str,
    arrow: &str,
    to: &str,
    given: &Given,
    made: &mut Made,
) -> Result<Exit, NoMemory>
    ensures told { IsStep (of_five name.now format.now text.now arrow.now to.now given.now made.old) result made.new }
{
    if is_print(name, format, text, arrow, to) {
        return answer_print(alloc, text, to, given, made);
    }
    Ok(Exit { code: 127 })
}

fn is_fill(name: &str, arg: &str) -> bool
    ensures told { result ≡ is_fill name.now arg.now }
{
    name == "cat" && is_word(arg)
}

fn is_copy(verb: &str, name: &str, from: &str, arrow: &str, to: &str) -> bool
    ensures told { result ≡ is_copy verb.now name.now from.now arrow.now to.now }
{
    name == verb && arrow == ">" && is_word(from) && is_word(to)
}

fn is_print(name: &str, format: &str, text: &str, arrow: &str, to: &str) -> bool
    ensures told { result ≡ is_print name.now format.now text.now arrow.now to.now }
{
    name == "printf" && format == "%s" && arrow == ">" && is_word(text) && is_word(to)
}

fn exit_of(digits: &str) -> Exit
    ensures code { result.code ≡ leave_code (number_of digits.now) }
{
    match number_of(digits.as_bytes()) {
        Some(code) => Exit { code: code as i32 },
        None => Exit { code: 127 },
    }
}

fn number_of(digits: &[u8]) -> Option<u32>
    ensures value { result ≡ number_of digits.now }
    ensures small { IfSome result (λ number. number < 2 ^ 31) }
{
    if digits.is_empty() || (digits[0] == b'0' && digits.len() > 1) {
        return None;
    }
    number_from(0, digits)
}

fn number_from(start: u32, digits: &[u8]) -> Option<u32>
    requires { start < 2 ^ 31 }
    ensures value { result ≡ number_from start digits.now }
    ensures small { IfSome result (λ number. number < 2 ^ 31) }
{
    let mut number = u64::from(start);
    for digit in digits {
        if !digit.is_ascii_digit() {
            return None;
        }
        number = 10 * number + u64::from(*digit - b'0');
        if number >= 1 << 31 {
            return None;
        }
    }
    Some(number as u32)
}

fn is_word(word: &str) -> bool
    ensures told { result ≡ is_word word.now }
{
    !word.is_empty() && are_word_bytes(word.as_bytes())
}

fn are_word_bytes(bytes: &[u8]) -> bool
    ensures told { result ≡ list_all is_word_byte bytes.now }
{
    for byte in bytes {
        if !is_word_byte(*byte) {
            return false;
        }
    }
    true
}

fn is_word_byte(byte: u8) -> bool
    ensures told { result ≡ is_word_byte byte }
{
    byte.is_ascii_alphanumeric() || byte == b'_' || byte == b'.' || byte == b'/' || byte == b'-'
}

// `cat P`
fn answer_fill(alloc: Global, from: &str, given: &Given, made: &mut Made) -> Result<Exit, NoMemory>
    ensures told { IsStep (fill given.now (found given.now.deps from.now) made.old) result made.new }
{
    match find_value(alloc, &given.deps, from)? {
        Value::Nothing => Ok(Exit { code: 1 }),
        Value::Files(_) => Ok(Exit { code: 1 }),
        Value::File(bytes) => {
            made.outs = filled(alloc, given.outs.as_slice(), &bytes)?;
            Ok(Exit { code: 0 })
        }
    }
}

// The bytes at each of the outputs.
fn filled(alloc: Global, outs: &[Text], bytes: &Bytes) -> Result<PathValues, NoMemory>
    ensures each { IfOk result (λ values. values ≡ map (λ out. record { path = out; value = File bytes.now }) outs.now) }
{
    let mut values = PathValues::new(alloc);
    for out in outs {
        push_file(alloc, &mut values, out.as_str(), bytes.as_slice())?;
    }
    Ok(values)
}

fn push_file(
    alloc: Global,
    values: &mut PathValues,
    path: &str,
    bytes: &[u8],
) -> Result<(), NoMemory>
    ensures pushed { OnOk result (values.new ≡ values.old ++ record { path = path.now; value = File bytes.now } ∷ []) }
{
    let path = Text::of(alloc, path)?;
    let bytes = Bytes::of(alloc, bytes)?;
    let value = Value::File(bytes);
    values.push(PathValue { path, value })
}

// `cat P > Q`
fn answer_copy(
    alloc: Global,
    from: &str,
    to: &str,
    given: &Given,
    made: &mut Made,
) -> Result<Exit, NoMemory>
    ensures told { IsStep (copy from.now to.now given.now made.old) result made.new }
{
    if !is_out(given, to) {
        return Ok(Exit { code: 1 });
    }
    put_file(alloc, to, &[], made)?;
    match source(alloc, given, made, from)? {
        Value::Nothing => Ok(Exit { code: 1 }),
        Value::Files(_) => Ok(Exit { code: 1 }),
        Value::File(bytes) => {
            put_file(alloc, to, bytes.as_slice(), made)?;
            Ok(Exit { code: 0 })
        }
    }
}

// `copy P > Q`
fn answer_whole(
    alloc: Global,
    from: &str,
    to: &str,
    given: &Given,
    made: &mut Made,
) -> Result<Exit, NoMemory>
    ensures told { IsStep (copy_whole from.now to.now given.now made.old) result made.new }
{
    if !is_out(given, to) {
        return Ok(Exit { code: 1 });
    }
    match find_value(alloc, &given.deps, from)? {
        Value::Nothing => Ok(Exit { code: 1 }),
        value => {
            put_value(alloc, to, value, made)?;
            Ok(Exit { code: 0 })
        }
    }
}

// `printf %s X > Q`
fn answer_print(
    alloc: Global,
    text: &str,
    to: &str,
    given: &Given,
    made: &mut Made,
) -> Result<Exit, NoMemory>
    ensures told { IsStep (print text.now to.now given.now made.old) result made.new }
{
    if !is_out(given, to) {
        return Ok(Exit { code: 1 });
    }
    put_file(alloc, to, text.as_bytes(), made)?;
    Ok(Exit { code: 0 })
}

fn is_out(given: &Given, path: &str) -> bool
    ensures told { result ≡ is_out given.now path.now }
{
    for out in given.outs.as_slice() {
        if out.as_str() == path {
            return true;
        }
    }
    false
}

// What was made at the path, or else the dependency.
fn source(alloc: Global, given: &Given, made: &Made, path: &str) -> Result<Value, NoMemory>
    ensures told { IfOk result (λ value. value ≡ source given.now made.now path.now) }
{
    match find_value(alloc, &made.outs, path)? {
        Value::Nothing => find_value(alloc, &given.deps, path),
        Value::File(bytes) => Ok(Value::File(bytes)),
        Value::Files(map) => Ok(Value::Files(map)),
    }
}

// The bytes at the output.
fn put_file(alloc: Global, out: &str, bytes: &[u8], made: &mut Made) -> Result<(), NoMemory>
    ensures put { OnOk result (made.new ≡ with_value out.now (File bytes.now) made.old) }
{
    let bytes = Bytes::of(alloc, bytes)?;
    put_value(alloc, out, Value::File(bytes), made)
}

// The value at the output; it stands first, and so in place of the one made before.
fn put_value(alloc: Global, out: &str, value: Value, made: &mut Made) -> Result<(), NoMemory>
    ensures put { OnOk result (made.new ≡ with_value out.now value made.old) }
{
    let mut outs = first_out(alloc, out, value)?;
    push_all(alloc, &mut outs, made.outs.as_slice())?;
    made.outs = outs;
    Ok(())
}

fn first_out(alloc: Global, out: &str, value: Value) -> Result<PathValues, NoMemory>
    ensures first { IfOk result (λ outs. outs ≡ record { path = out.now; value = value } ∷ []) }
{
    let path = Text::of(alloc, out)?;
    let mut outs = PathValues::new(alloc);
    outs.push(PathValue { path, value })?;
    Ok(outs)
}

fn push_all(alloc: Global, values: &mut PathValues, more: &[PathValue]) -> Result<(), NoMemory>
    ensures pushed { OnOk result (values.new ≡ values.old ++ more.now) }
{
    for entry in more {
        let entry = entry.copy(alloc)?;
        values.push(entry)?;
    }
    Ok(())
}
