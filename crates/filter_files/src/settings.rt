//! What the operator sets: the words behind `--set`.

ghost use Rattle.std.specs.Prelude.{◌≡◌, ◌++◌, ◌∷◌, All, IfNone, IfOk, IfSome, None, false, true};
ghost use Rattle.filter_files.specs.Prelude.{TellsSetting};
ghost use Rattle.filter_files.specs.Settings.{IsUsed, KeepsWords, setting_word};

use crate::compiling::FilterFault;
use author_text::source::Source;
use author_text::{SetRefusal, set_param};
use memchr::memchr;
use std::alloc::{AllocError, Global};

/// A `param` that the operator sets, for each filter that has such a `param`, or for each of one name that has.
#[derive(Clone, Copy)]
pub struct ParamSetting<'a> {
    /// The name of the filters; none stands for all.
    pub filter: Option<&'a [u8]>,
    /// The name of the `param`.
    pub param: &'a [u8],
    /// The value: decimal digits of a number, or the bytes of a text.
    pub value: &'a [u8],
    /// Whether it was set in a filter.
    pub is_used: bool,
}

/// What stands before the first such byte, and what stands behind it; none where there is no such byte.
fn cut_at(bytes: &[u8], stop: u8) -> Option<(&[u8], &[u8])>
    ensures { IfSome result (λ p. p.0.now ++ stop ∷ p.1.now ≡ bytes.now) }
{
    match memchr(stop, bytes) {
        Some(at) => Some((&bytes[..at], &bytes[at + 1..])),
        None => None,
    }
}

/// The setting of a name, which may have that of a filter before it, and of a value.
fn named_setting<'a>(name: &'a [u8], value: &'a [u8]) -> ParamSetting<'a>
    ensures word { setting_word result ≡ name.now ++ 61 ∷ value.now }
    ensures unused { result.is_used ≡ false }
{
    match cut_at(name, b'.') {
        Some((filter, param)) => ParamSetting {
            filter: Some(filter),
            param,
            value,
            is_used: false,
        },
        None => ParamSetting {
            filter: None,
            param: name,
            value,
            is_used: false,
        },
    }
}

/// The setting that a word says, `NAME=VALUE` or `FILTER.NAME=VALUE`; none where there is no `=`.
pub fn setting_of(word: &[u8]) -> Option<ParamSetting<'_>>
    ensures word { IfSome result (λ s. setting_word s ≡ word.now) }
    ensures unused { IfSome result (λ s. s.is_used ≡ false) }
{
    match cut_at(word, b'=') {
        Some((name, value)) => Some(named_setting(name, value)),
        None => None,
    }
}

/// The line for a word that says no setting.
pub fn no_setting(alloc: Global, word: &[u8]) -> Result<FilterFault, AllocError>
    ensures { IfOk result (λ f. (f.place ≡ None) × TellsSetting f.line.items) }
{
    let setting = ParamSetting {
        filter: None,
        param: word,
        value: b"",
        is_used: false,
    };
    setting_fault(alloc, &setting, "NAME=VALUE is due")
}

/// Whether it is for filters of this name.
fn is_for(setting: &ParamSetting<'_>, filter: &[u8]) -> bool {
    match setting.filter {
        Some(name) => name == filter,
        None => true,
    }
}

/// The line for a setting: `cannot set NAME: WHY`, with the filter's name where it was said.
fn setting_fault(
    alloc: Global,
    setting: &ParamSetting<'_>,
    why: &str,
) -> Result<FilterFault, AllocError>
    ensures { IfOk result (λ f. (f.place ≡ None) × TellsSetting f.line.items) }
{
    let mut line = Vec::from_slice(alloc, b"cannot set ")?;
    if let Some(filter) = setting.filter {
        line.extend_from_slice(filter)?;
        line.push(b'.')?;
    }
    line.extend_from_slice(setting.param)?;
    line.extend_from_slice(b": ")?;
    line.extend_from_slice(why.as_bytes())?;
    line.push(b'\n')?;
    Ok(FilterFault { place: None, line })
}

/// Why a `param` cannot have a value.
fn refused_value(refusal: SetRefusal) -> Result<&'static str, AllocError> {
    match refusal {
        SetRefusal::Unknown => Ok("no filter here has such a param"),
        SetRefusal::NoNumber => Ok("a number from 0 to 4294967295 is due"),
        SetRefusal::TooLong => Ok("a text has at most 255 bytes"),
        SetRefusal::NoMemory => Err(AllocError),
    }
}

/// Sets a `param` of a filter, if the setting is for it. The fault says that the value is none.
fn set_one(
    alloc: Global,
    source: &mut Source<'_>,
    setting: &mut ParamSetting<'_>,
) -> Result<Option<FilterFault>, AllocError>
    ensures line { IfOk result (λ o. IfSome o (λ f. (f.place ≡ None) × TellsSetting f.line.items)) }
    ensures word { setting_word setting.new ≡ setting_word setting.old }
{
    if !is_for(setting, source.name) {
        return Ok(None);
    }
    match set_param(alloc, source, setting.param, setting.value) {
        Ok(()) => {
            setting.is_used = true;
            Ok(None)
        }
        Err(SetRefusal::Unknown) => Ok(None),
        Err(refusal) => {
            let why = refused_value(refusal)?;
            Ok(Some(setting_fault(alloc, setting, why)?))
        }
    }
}

/// Sets the params of a filter that settings are for. The fault is of the first value that is none.
fn set_each(
    alloc: Global,
    source: &mut Source<'_>,
    settings: &mut [ParamSetting<'_>],
) -> Result<Option<FilterFault>, AllocError>
    ensures line { IfOk result (λ o. IfSome o (λ f. (f.place ≡ None) × TellsSetting f.line.items)) }
    ensures words { KeepsWords settings.old settings.new }
{
    for setting in settings.iter_mut() {
        if let Some(fault) = set_one(alloc, source, setting)? {
            return Ok(Some(fault));
        }
    }
    Ok(None)
}

/// Sets the params of a filter that settings are for. The fault is of the first value that is none, and where the filter `is_alone`, the
/// first setting that it has no `param` for.
pub fn set_params(
    alloc: Global,
    source: &mut Source<'_>,
    settings: &mut [ParamSetting<'_>],
    is_alone: bool,
) -> Result<Option<FilterFault>, AllocError>
    ensures line { IfOk result (λ o. IfSome o (λ f. (f.place ≡ None) × TellsSetting f.line.items)) }
    ensures used { IfOk result (λ o. IfNone o (is_alone ≡ true → All IsUsed settings.new)) }
    ensures words { KeepsWords settings.old settings.new }
{
    if let Some(fault) = set_each(alloc, source, settings)? {
        return Ok(Some(fault));
    }
    if is_alone {
        return unused_setting(alloc, settings);
    }
    Ok(None)
}

/// The fault of the first setting that no filter has a `param` for; none where each was set.
pub fn unused_setting(
    alloc: Global,
    settings: &[ParamSetting<'_>],
) -> Result<Option<FilterFault>, AllocError>
    ensures line { IfOk result (λ o. IfSome o (λ f. (f.place ≡ None) × TellsSetting f.line.items)) }
    ensures used { IfOk result (λ o. IfNone o (All IsUsed settings.now)) }
{
    for setting in settings {
        if !setting.is_used {
            let why = refused_value(SetRefusal::Unknown)?;
            return Ok(Some(setting_fault(alloc, setting, why)?));
        }
    }
    Ok(None)
}
