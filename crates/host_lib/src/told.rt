//! Why a chain is not taken, as numbers, `struct cidawru_told` of `cidawru.h`, and as a message.

ghost use Rattle.std.specs.Prelude.{◌≡◌};
ghost use Rattle.host_lib.specs.Codes.{fault_code, message_of, only, place_numbers, rule_code, told_of, told_of_filter};
ghost use Rattle.host_lib.specs.Calls.{PutsFront};

use crate::loading::LoadRefusal;
use author_text::place::Place;
use filter_files::FilterFault;
use life_check::{CheckRefusal, Rule};
use run_model::FaultKind;

/// Why a chain is not taken.
#[repr(C)]
#[derive(Clone, Copy)]
pub struct LoadTold {
    /// What is refused: one of the numbers below; 0 where the chain is taken.
    pub what: u32,
    /// The code of the line, or the rule.
    pub code: u32,
    /// The module, from 0 on.
    pub module: u64,
    /// The line of its text or certificate, from 1 on, or the instruction, from 0 on. Of a filter 0, where what is wrong has no place.
    pub place: u64,
    /// Of a filter the column, from 1 on, where there is a line.
    pub column: u64,
    /// How many bytes the message has.
    pub message: u64,
}

/// No module, or too many; or the lengths are not together that of the texts.
const NO_CHAIN: u32 = 1;
/// There is no memory.
const NO_MEMORY: u32 = 2;
/// A text is no module.
const NO_MODULE: u32 = 3;
/// A text is no certificate.
const NO_CERT: u32 = 4;
/// A module is refused.
const REFUSED: u32 = 5;
/// The handle holds a session already.
const HELD: u32 = 6;
/// A filter is not compiled.
const NO_FILTER: u32 = 7;
/// A word is no setting, or is for no filter.
const NO_SETTING: u32 = 8;
/// A text is of no kind.
const NO_KIND: u32 = 9;

fn fault_code(kind: FaultKind) -> u32
    ensures { result ≡ fault_code kind }
{
    match kind {
        FaultKind::F1 => 1,
        FaultKind::F2 => 2,
        FaultKind::F3 => 3,
        FaultKind::F4 => 4,
        FaultKind::F5 => 5,
        FaultKind::F6 => 6,
        FaultKind::F7 => 7,
        FaultKind::F8 => 8,
        FaultKind::F9 => 9,
        FaultKind::F10 => 10,
    }
}

/// The number of a rule: `CIDAWRU_RULE_` of `cidawru.h`.
fn rule_code(rule: Rule) -> u32
    ensures { result ≡ rule_code rule }
{
    match rule {
        Rule::May(kind) => fault_code(kind),
        Rule::Shape => 11,
        Rule::Entry => 12,
        Rule::Flow => 13,
        Rule::Exit => 14,
        Rule::Request => 15,
    }
}

/// The line and the column of a place, 0 and 0 where there is none.
fn place_numbers(place: Option<Place>) -> (usize, usize)
    ensures { result ≡ place_numbers place }
{
    match place {
        Some(place) => (place.line, place.column),
        None => (0, 0),
    }
}

/// The line that says in words why a chain is not taken: of filters and settings alone.
pub(crate) fn message(refusal: &LoadRefusal) -> &[u8]
    ensures { result.now ≡ message_of refusal.now }
{
    match refusal {
        LoadRefusal::NoFilter { index: _, fault } => fault.line.as_slice(),
        LoadRefusal::NoSetting { fault } => fault.line.as_slice(),
        _ => &[],
    }
}

/// Puts as much of a message into the front of a buffer as there is room for.
pub(crate) fn put_message(message: &[u8], buffer: &mut [u8])
    ensures { PutsFront message.now buffer.old buffer.new }
{
    let len = message.len();
    let room = buffer.len();
    if len <= room {
        buffer[..len].copy_from_slice(message);
    } else {
        buffer.copy_from_slice(&message[..room]);
    }
}

impl LoadTold {
    /// What tells of no module.
    fn of(what: u32) -> LoadTold
        ensures { result ≡ only what }
    {
        LoadTold {
            what,
            code: 0,
            module: 0,
            place: 0,
            column: 0,
            message: 0,
        }
    }

    /// It is taken.
    pub(crate) fn taken() -> LoadTold
        ensures { result ≡ only 0 }
    {
        LoadTold::of(0)
    }

    /// The handle holds a session already.
    pub(crate) fn held() -> LoadTold
        ensures { result ≡ only 6 }
    {
        LoadTold::of(HELD)
    }

    /// Why it is not taken.
    pub(crate) fn why(refusal: LoadRefusal) -> LoadTold
        ensures { result ≡ told_of refusal }
    {
        match refusal {
            LoadRefusal::NoChain => LoadTold::of(NO_CHAIN),
            LoadRefusal::NoMemory => LoadTold::of(NO_MEMORY),
            LoadRefusal::NoModule { index, line, code } => LoadTold {
                code: code.number() as u32,
                module: index as u64,
                place: line as u64,
                ..LoadTold::of(NO_MODULE)
            },
            LoadRefusal::NoCert { index, line, code } => LoadTold {
                code: code.number() as u32,
                module: index as u64,
                place: line as u64,
                ..LoadTold::of(NO_CERT)
            },
            LoadRefusal::NotSafe {
                index,
                refusal: CheckRefusal { pc, rule },
            } => LoadTold {
                code: rule_code(rule),
                module: index as u64,
                place: pc as u64,
                ..LoadTold::of(REFUSED)
            },
            LoadRefusal::NoFilter { index, fault } => LoadTold::of_filter(index, fault),
            LoadRefusal::NoSetting {
                fault: FilterFault { place: _, line },
            } => LoadTold {
                message: line.len() as u64,
                ..LoadTold::of(NO_SETTING)
            },
            LoadRefusal::NoKind { index } => LoadTold {
                module: index as u64,
                ..LoadTold::of(NO_KIND)
            },
        }
    }

    /// Why the filter of this index is not compiled.
    fn of_filter(index: usize, fault: FilterFault) -> LoadTold
        ensures { result ≡ told_of_filter index fault }
    {
        let FilterFault { place, line } = fault;
        let (row, column) = place_numbers(place);
        LoadTold {
            module: index as u64,
            place: row as u64,
            column: column as u64,
            message: line.len() as u64,
            ..LoadTold::of(NO_FILTER)
        }
    }
}
