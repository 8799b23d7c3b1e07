//! Certificates from their texts.

ghost use Rattle.std.specs.Prelude.{◌≡◌, ℕ, Bool, ◌≤◌, ◌<◌, ◌++◌, IfOk, IfErr, MatchResult, OnOk, Result, length, take, not, ◌||◌, ◌==◌, true, false};
ghost use Rattle.life_check.specs.declared.version.CertVersion.{CertVersion};
ghost use Rattle.life_cert.specs.Prelude.{AnswersFault, Certificate, seen_cert, HaveSameStates, IsPrinted, IsCertText, IsReported, IsToldOf, EndTold, more_than};
ghost use Rattle.life_cert.specs.declared.refusal.CertCode.{CertCode as fault_code};
ghost use Rattle.life_cert.specs.declared.refusal.CertRefusal.TheVariants.{Fault, NoMemory};

use crate::draft::CertDraft;
use crate::due::{Due, is_over};
use crate::refusal::{CertCode, CertRefusal};
use byte_text::take_lines;
use life_check::Cert;
use std::alloc::Global;

/// How many bytes a certificate text has at most.
const MAX_LEN: usize = 4_194_304;

/// Judges what follows the last LF: nothing may, and the last line must have been `end`.
fn end_lines(due: Due, number: usize, rest: &[u8], long: bool) -> Result<(), CertRefusal>
    ensures { EndTold (more_than long rest.now) due number result }
{
    if long || !rest.is_empty() {
        return Err(CertRefusal::Fault {
            line: number,
            code: CertCode::BadByte,
        });
    }
    if !is_over(due) {
        return Err(CertRefusal::Fault {
            line: number,
            code: CertCode::NotDue,
        });
    }
    Ok(())
}

/// What the lines of a text say, of which more follows where it is `long`.
fn read_lines(alloc: Global, text: &[u8], long: bool) -> Result<Cert, CertRefusal>
    requires { length text.now ≤ 4194304 }
    ensures right { IfOk result (λ c. (long ≡ false) × IsCertText text.now c.version c.slim (seen_cert c)) }
    ensures told { IfErr result (λ e. IsToldOf long text.now e) }
{
    let mut draft = CertDraft::new(alloc);
    let last = take_lines(alloc, &mut draft, text)?;
    end_lines(draft.due, last.number, &text[last.start..], long)?;
    let CertDraft {
        due: _,
        version,
        slim,
        idle,
        ready,
        at,
        sums: _,
    } = draft;
    Ok(Cert {
        version,
        slim,
        idle,
        ready,
        at,
    })
}

/// The certificate that a text spells, or its first faulty line, from 1, with the lowest code that fits it: where a text has one,
/// that is the answer. A text has at most 4,194,304 bytes; `NoMemory` is the answer where memory runs out.
pub fn read_cert(alloc: Global, text: &[u8]) -> Result<Cert, CertRefusal>
    ensures right { IfOk result (λ c. IsCertText text.now c.version c.slim (seen_cert c)) }
    ensures told { IfErr result (λ e. IsReported text.now e) }
    ensures first { (line : ℕ) (code : fault_code) → IsReported text.now (Fault line code) → AnswersFault line code result }
    ensures again { (v : CertVersion) (slim : Bool) (c : Certificate) → IsPrinted text.now v slim c → MatchResult result (λ r. (r.version ≡ v) × (r.slim ≡ slim) × HaveSameStates (seen_cert r) c) (λ e. e ≡ NoMemory) }
{
    if MAX_LEN < text.len() {
        read_lines(alloc, &text[..MAX_LEN], true)
    } else {
        read_lines(alloc, text, false)
    }
}
