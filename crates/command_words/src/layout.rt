//! The one form in which what is given is written.
ghost use Rattle.std.specs.Prelude.{◌≡◌, ◌++◌, ◌∷◌, [], IfOk, OnOk, map, string_bytes};
ghost use Rattle.command_words.specs.Form.{laid_out, option_form};
ghost use Rattle.command_words.specs.Verbs.{word_of};

use crate::flag::name_of;
use crate::given::{Given, Setting};
use crate::verb::{Verb, word_of};
use std::alloc::{AllocError, Global};
use vocabulary::Text;

/// The word `--name=VALUE` of an option.
fn option_form(alloc: Global, setting: &Setting) -> Result<String, AllocError>
    ensures { IfOk result (λ word. string_bytes word ≡ option_form setting.now) }
{
    let mut word = String::from_str(alloc, "--")?;
    word.push_str(name_of(setting.flag))?;
    word.push_str("=")?;
    word.push_str(setting.value.as_str())?;
    Ok(word)
}

/// Appends the words of options.
fn push_options(
    alloc: Global,
    settings: &[Setting],
    form: &mut Vec<String>,
) -> Result<(), AllocError>
    ensures { OnOk result (map string_bytes form.new.items ≡ map string_bytes form.old.items ++ map option_form settings.now) }
{
    for setting in settings {
        let word = option_form(alloc, setting)?;
        form.push(word)?;
    }
    Ok(())
}

/// Appends a copy of a word.
fn push_word(alloc: Global, word: &str, form: &mut Vec<String>) -> Result<(), AllocError>
    ensures { OnOk result (map string_bytes form.new.items ≡ map string_bytes form.old.items ++ word.now ∷ []) }
{
    let word = String::from_str(alloc, word)?;
    form.push(word)?;
    Ok(())
}

/// Appends copies of words.
fn push_words(alloc: Global, words: &[Text], form: &mut Vec<String>) -> Result<(), AllocError>
    ensures { OnOk result (map string_bytes form.new.items ≡ map string_bytes form.old.items ++ words.now) }
{
    for word in words {
        push_word(alloc, word.as_str(), form)?;
    }
    Ok(())
}

/// The first word, and after it the form of what is given.
#[tactic(auto, using(crate::proofs::Form::in_order))]
pub(crate) fn laid_out(alloc: Global, verb: Verb, given: &Given) -> Result<Vec<String>, AllocError>
    ensures { IfOk result (λ form. map string_bytes form.items ≡ word_of verb ∷ laid_out given.now) }
{
    let mut form = Vec::new(alloc);
    push_word(alloc, word_of(verb), &mut form)?;
    push_options(alloc, given.settings.items(), &mut form)?;
    push_word(alloc, "--", &mut form)?;
    push_words(alloc, given.positionals.items(), &mut form)?;
    Ok(form)
}
