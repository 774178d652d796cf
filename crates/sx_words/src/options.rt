//! The options after a command's name.

ghost use Rattle.std.specs.Prelude.{◌≡◌, Some, None, true, false, IfNone, IfOk, IfSome, IsErrOf, option_map};
ghost use Rattle.std.specs.List.{All, list_any};
ghost use Rattle.sx_words.specs.Numbers.{texts};
ghost use Rattle.sx_words.specs.Options.{choice_of, is_equals, named, number_for, parted_at_equals, read_options};
ghost use Rattle.sx_words.specs.Reading.{IsGiven, IsWritten, choice_in, choices_in, number_if, text_of};
ghost use Rattle.sx_words.specs.declared.fault.WordsFault.TheVariants as words_fault;

use crate::fault::WordsFault;
use crate::number::number;
use crate::setting::Setting;
use std::alloc::Global;

// An option that was given, with its number.
#[derive(Clone, Copy, Debug, PartialEq, Eq)]
pub(crate) struct Choice {
    pub setting: Setting,
    pub number: u32,
}

// An option that was given, and the word of its number.
#[derive(Clone, Copy)]
pub(crate) struct Written<'a> {
    pub choice: Choice,
    pub word: &'a str,
}

// The option of this name, where it is one of these.
fn named(settings: &[Setting], name: &str) -> Option<Setting>
    ensures { result ≡ named settings.now name.now }
{
    for setting in settings {
        if setting.name() == name {
            return Some(*setting);
        }
    }
    None
}

// An option of these, with the number that a word spells.
fn chosen<'a>(settings: &[Setting], name: &str, word: &'a str) -> Option<Written<'a>>
    ensures value { option_map choice_in result
        ≡ choice_of settings.now (record { name = name.now; number = word.now }) }
    ensures range { IfSome result IsWritten }
{
    let setting = named(settings, name)?;
    let number = number(word, setting.least() as u64, setting.most() as u64)?;
    let number = number as u32;
    let choice = Choice { setting, number };
    Some(Written { choice, word })
}

// The name and the number of an option of one word.
fn parted(word: &str) -> Option<(&str, &str)>
    ensures whole { IfNone result (list_any is_equals word.now ≡ false) }
    ensures parts { IfSome result (λ p. (list_any is_equals word.now ≡ true)
        × (parted_at_equals word.now ≡ record { name = p.0.now; number = p.1.now })) }
{
    word.split_once('=')
}

// The options that words give to a command that has these.
pub(crate) fn read_options<'a>(
    alloc: Global,
    settings: &[Setting],
    words: &'a [String],
) -> Result<Vec<Written<'a>>, WordsFault>
    ensures ok { IfOk result (λ given. read_options settings.now (texts words.now) ≡ Some (choices_in given.items)) }
    ensures range { IfOk result (λ given. All IsWritten given.items) }
    ensures usage { IsErrOf result words_fault.Usage → read_options settings.now (texts words.now) ≡ None }
{
    let mut given = Vec::new(alloc);
    let mut name: Option<&str> = None;
    for word in words {
        match name {
            Some(before) => {
                given.push(chosen(settings, before, word.as_str()).ok_or(WordsFault::Usage)?)?;
                name = None;
            }
            None => match parted(word.as_str()) {
                Some((before, after)) => {
                    given.push(chosen(settings, before, after).ok_or(WordsFault::Usage)?)?
                }
                None => name = Some(word.as_str()),
            },
        }
    }
    match name {
        Some(_) => Err(WordsFault::Usage),
        None => Ok(given),
    }
}

// The word of an option's number, or none where it is left out, if it was given at most once.
pub(crate) fn word_for<'a>(given: &[Written<'a>], setting: Setting) -> Option<Option<&'a str>>
    requires { All IsWritten given.now }
    ensures value { number_for setting (choices_in given.now) ≡ number_if setting (option_map text_of result) }
    ensures range { IfSome result (λ word. IsGiven setting (text_of word)) }
{
    let mut word = None;
    for one in given {
        if one.choice.setting == setting {
            if word.is_some() {
                return None;
            }
            word = Some(one.word);
        }
    }
    Some(word)
}
