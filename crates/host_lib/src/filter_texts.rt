//! Filters of a chain, from texts in the language for authors, and the settings of their params.

ghost use Rattle.std.specs.Prelude.{◌≡◌, ◌↔◌, All, IfErr, IfOk, IsTrue, OnOk, map};
ghost use Rattle.script_text.specs.Heads.{seen_part};
ghost use Rattle.filter_files.specs.Settings.{IsUsed, KeepsWords, setting_word};
ghost use Rattle.host_lib.specs.Filters.{AreSettingWords, FitWords, IsFilterPart, IsFilterRefused, IsSettingRefused};

use crate::loading::LoadRefusal;
use author_compile::Compiled;
use filter_files::{
    FilterRead, ParamSetting, compile_text, no_setting, setting_of, unused_setting,
};
use script_text::ScriptModule;
use std::alloc::{AllocError, Global};

/// The module that is compiled of the text of a filter, with its certificate. Settings that the filter has a `param` for are set in it.
pub(crate) fn filter_part(
    alloc: Global,
    index: usize,
    text: &[u8],
    settings: &mut [ParamSetting<'_>],
) -> Result<ScriptModule, LoadRefusal>
    ensures read { IfOk result (λ x. IsFilterPart (seen_part x)) }
    ensures refused { IfErr result (IsFilterRefused index text.now) }
    ensures words { KeepsWords settings.old settings.new }
{
    let mut notes = Vec::new(alloc);
    match compile_text(alloc, text, settings, false, &mut notes) {
        Ok(FilterRead::Compiled(compiled)) => Ok(compiled_part(compiled)),
        Ok(FilterRead::Faulty(fault)) => Err(LoadRefusal::NoFilter { index, fault }),
        Err(AllocError) => Err(LoadRefusal::NoMemory),
    }
}

/// What was compiled, as a module with its certificate.
fn compiled_part(compiled: Compiled) -> ScriptModule
    ensures code { result.code ≡ compiled.code }
    ensures cert { result.cert ≡ Some compiled.cert }
{
    let Compiled {
        code,
        cert,
        text: _,
        per_byte: _,
    } = compiled;
    ScriptModule {
        code,
        cert: Some(cert),
    }
}

/// Whether the lengths are together that of the words.
pub(crate) fn fit_words(words: &[u8], lengths: &[usize]) -> bool
    ensures { IsTrue result ↔ FitWords words.now lengths.now }
{
    let mut rest = words.len();
    for length in lengths {
        if rest < *length {
            return false;
        }
        rest -= *length;
    }
    rest == 0
}

/// The setting that a word says.
fn setting_in<'a>(alloc: Global, word: &'a [u8]) -> Result<ParamSetting<'a>, LoadRefusal>
    ensures read { IfOk result (λ s. setting_word s ≡ word.now) }
    ensures refused { IfErr result IsSettingRefused }
{
    if let Some(setting) = setting_of(word) {
        return Ok(setting);
    }
    match no_setting(alloc, word) {
        Ok(fault) => Err(LoadRefusal::NoSetting { fault }),
        Err(AllocError) => Err(LoadRefusal::NoMemory),
    }
}

/// The settings that words say, which stand one after another.
pub(crate) fn settings_of<'a>(
    alloc: Global,
    words: &'a [u8],
    lengths: &[usize],
) -> Result<Vec<ParamSetting<'a>>, LoadRefusal>
    requires { FitWords words.now lengths.now }
    ensures read { IfOk result (λ v. AreSettingWords words.now lengths.now (map setting_word v.items)) }
    ensures refused { IfErr result IsSettingRefused }
{
    let mut settings = Vec::new(alloc);
    let mut rest = words;
    for length in lengths {
        let (word, behind) = rest.split_at(*length);
        let setting = match setting_in(alloc, word) {
            Ok(setting) => setting,
            Err(refusal) => return Err(refusal),
        };
        match settings.push(setting) {
            Ok(()) => {}
            Err(_) => return Err(LoadRefusal::NoMemory),
        }
        rest = behind;
    }
    Ok(settings)
}

/// Refuses the first setting that no filter has a `param` for.
pub(crate) fn each_set(alloc: Global, settings: &[ParamSetting<'_>]) -> Result<(), LoadRefusal>
    ensures set { OnOk result (All IsUsed settings.now) }
    ensures refused { IfErr result IsSettingRefused }
{
    match unused_setting(alloc, settings) {
        Ok(None) => Ok(()),
        Ok(Some(fault)) => Err(LoadRefusal::NoSetting { fault }),
        Err(AllocError) => Err(LoadRefusal::NoMemory),
    }
}
