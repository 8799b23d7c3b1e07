//! What stands in a script before its commands: module texts, certificate texts, and the lines `budget` and `checked`.

ghost use Rattle.std.specs.Prelude.{◌≡◌, ◌<◌, ◌+◌, ◌^◌, [], map, IfOk, OnOk, OnErr};
ghost use Rattle.script_text.specs.Prelude.{budget_at, seen_part, with_cert, head_of, no_head, is_skipped, begins_module, with_line, EndsModule, EndsCert, TakesInModule, TakesInCert, TakesBehind};
ghost use Rattle.script_text.specs.Prelude.{TakesBehindModule, TakesBehindSkipped, TakesHeading, TakesChecked, taken_as, TakesLine, EndsHead, TellsMore, at_line};

use crate::lines::{begins_cert, is_end};
use crate::part::ScriptModule;
use crate::reply::{put_asm_fault_behind, put_cert_fault, put_script_fault};
use crate::script::{DEFAULT_BUDGET, budget_at, is_checked};
use byte_text::{is_text, token, unindented};
use life_cert::{CertRefusal, read_cert};
use life_check::Cert;
use module_lang::{AsmRefusal, assemble};
use std::alloc::{AllocError, Global};

/// How many modules a chain has at most.
pub const MODULES: usize = 16;

/// What a line may be.
#[derive(Clone, Copy)]
enum HeadPlace {
    /// A line of a module text.
    InModule,
    /// A line of the certificate text of the last module.
    InCert,
    /// The first line behind a module text.
    BehindModule,
    /// The first line behind a certificate text.
    BehindCert,
    /// A line behind lines that are skipped, which a further module text has to follow.
    BehindSkipped,
    /// The line behind `budget`.
    BehindBudget,
}

/// How a line was taken.
#[derive(Clone, Copy)]
pub enum LineTaken {
    /// More is to come before the commands.
    More,
    /// A fault was told, which ends the play.
    Over,
    /// The line was `checked`: the chain is to be checked, and commands follow.
    Checked,
    /// The line is none of these: it has to be the first command.
    Command,
}

/// What was read of a script so far.
#[derive(Drop)]
pub struct Texts {
    /// The modules that were read, with their certificates.
    pub parts: Vec<ScriptModule>,
    /// How many instructions a call may take.
    pub budget: u64,
    place: HeadPlace,
    // The text that is being read, and how many lines stand before it.
    text: Vec<u8>,
    before: usize,
}

/// Whether a line is skipped in a module text: it is empty or a comment.
pub fn is_skipped(text: &[u8], ended: bool) -> bool
    ensures { result ≡ is_skipped (record { text = text.now; ended = ended }) }
{
    let rest = unindented(text);
    rest.is_empty() || rest[0] == b'#'
}

/// Whether a line is the first of a module text that is not skipped.
pub fn begins_module(text: &[u8], ended: bool) -> bool
    ensures { result ≡ begins_module (record { text = text.now; ended = ended }) }
{
    is_text(token(unindented(text)), b"module")
}

/// The last module has this certificate.
#[tactic(auto, using(crate::proofs::HeadLaws::given_last, crate::proofs::HeadLaws::given_none))]
fn give_cert(parts: &mut Vec<ScriptModule>, cert: Cert) -> Result<(), AllocError>
    ensures { OnOk result (map seen_part parts.new.items ≡ with_cert cert (map seen_part parts.old.items)) }
{
    let Some(part) = parts.pop() else {
        return Ok(());
    };
    let ScriptModule { code, cert: _ } = part;
    let cert = Some(cert);
    parts.push(ScriptModule { code, cert })?;
    Ok(())
}

impl Texts {
    /// Nothing was read yet. The first module text is due.
    pub fn new(alloc: Global) -> Self
        ensures { head_of result ≡ no_head }
    {
        Texts {
            parts: Vec::new(alloc),
            budget: DEFAULT_BUDGET,
            place: HeadPlace::InModule,
            text: Vec::new(alloc),
            before: 0,
        }
    }

    /// How many lines stand before the text that is being read, or before the line behind the last one.
    pub fn before(&self) -> usize
        ensures { result ≡ self.now.before }
    {
        self.before
    }

    /// Adds a line to the text that is being read.
    fn add(&mut self, text: &[u8], ended: bool, place: HeadPlace) -> Result<(), AllocError>
        ensures { OnOk result (head_of self.new ≡ with_line (record { text = text.now; ended = ended }) place (head_of self.old)) }
    {
        self.text.extend_from_slice(text)?;
        if ended {
            self.text.push(b'\n')?;
        }
        self.place = place;
        Ok(())
    }

    /// The module text ends: it is assembled, or its fault is told.
    fn end_module(&mut self, alloc: Global, out: &mut Vec<u8>) -> Result<LineTaken, AllocError>
        ensures ok { IfOk result (λ t. TellsMore out.old.items out.new.items (λ told. EndsModule (head_of self.old) t told (head_of self.new))) }
        ensures err { OnErr result (out.new.items ≡ out.old.items) }
    {
        match assemble(alloc, self.text.as_slice()) {
            Ok(code) => {
                self.parts.push(ScriptModule { code, cert: None })?;
                self.text.clear();
                self.place = HeadPlace::BehindModule;
                Ok(LineTaken::More)
            }
            Err(AsmRefusal::Fault { line, code }) => {
                put_asm_fault_behind(alloc, out, self.before, line, code.number())?;
                Ok(LineTaken::Over)
            }
            Err(AsmRefusal::NoMemory) => Err(AllocError),
        }
    }

    /// The certificate text ends: it is read, or its fault is told.
    fn end_cert(&mut self, alloc: Global, out: &mut Vec<u8>) -> Result<LineTaken, AllocError>
        ensures ok { IfOk result (λ t. TellsMore out.old.items out.new.items (λ told. EndsCert (head_of self.old) t told (head_of self.new))) }
        ensures err { OnErr result (out.new.items ≡ out.old.items) }
    {
        match read_cert(alloc, self.text.as_slice()) {
            Ok(cert) => {
                give_cert(&mut self.parts, cert)?;
                self.text.clear();
                self.place = HeadPlace::BehindCert;
                Ok(LineTaken::More)
            }
            Err(CertRefusal::Fault { line, code }) => {
                put_cert_fault(alloc, out, self.before, line, code.number())?;
                Ok(LineTaken::Over)
            }
            Err(CertRefusal::NoMemory) => Err(AllocError),
        }
    }

    /// Takes a line of a module text.
    fn take_in_module(
        &mut self,
        alloc: Global,
        text: &[u8],
        ended: bool,
        out: &mut Vec<u8>,
    ) -> Result<LineTaken, AllocError>
        ensures ok { IfOk result (λ t. TellsMore out.old.items out.new.items (λ told. TakesInModule (record { text = text.now; ended = ended }) (head_of self.old) t told (head_of self.new))) }
        ensures err { OnErr result (out.new.items ≡ out.old.items) }
    {
        self.add(text, ended, HeadPlace::InModule)?;
        if is_end(text, ended) {
            return self.end_module(alloc, out);
        }
        Ok(LineTaken::More)
    }

    /// Takes a line of a certificate text.
    fn take_in_cert(
        &mut self,
        alloc: Global,
        text: &[u8],
        ended: bool,
        out: &mut Vec<u8>,
    ) -> Result<LineTaken, AllocError>
        ensures ok { IfOk result (λ t. TellsMore out.old.items out.new.items (λ told. TakesInCert (record { text = text.now; ended = ended }) (head_of self.old) t told (head_of self.new))) }
        ensures err { OnErr result (out.new.items ≡ out.old.items) }
    {
        self.add(text, ended, HeadPlace::InCert)?;
        if is_end(text, ended) {
            return self.end_cert(alloc, out);
        }
        Ok(LineTaken::More)
    }

    /// Takes a line behind the texts: `budget`, `checked`, or a command.
    fn take_heading(&mut self, text: &[u8], ended: bool) -> LineTaken
        ensures { TakesHeading (budget_at (record { text = text.now; ended = ended })) (record { text = text.now; ended = ended }) (head_of self.old) result [] (head_of self.new) }
    {
        if let Some(budget) = budget_at(text, ended) {
            self.budget = budget;
            self.place = HeadPlace::BehindBudget;
            return LineTaken::More;
        }
        take_checked(text, ended)
    }

    /// Takes the first line behind a text, which is of no certificate: of a further module, or a heading.
    fn take_behind(
        &mut self,
        alloc: Global,
        text: &[u8],
        ended: bool,
        out: &mut Vec<u8>,
    ) -> Result<LineTaken, AllocError>
        ensures ok { IfOk result (λ t. TellsMore out.old.items out.new.items (λ told. TakesBehind (record { text = text.now; ended = ended }) (head_of self.old) t told (head_of self.new))) }
        ensures err { OnErr result (out.new.items ≡ out.old.items) }
    {
        if is_skipped(text, ended) {
            self.add(text, ended, HeadPlace::BehindSkipped)?;
            return Ok(LineTaken::More);
        }
        if self.parts.len() < MODULES && begins_module(text, ended) {
            return self.take_in_module(alloc, text, ended, out);
        }
        Ok(self.take_heading(text, ended))
    }

    /// Takes the first line behind a module text, which may be of its certificate.
    fn take_behind_module(
        &mut self,
        alloc: Global,
        text: &[u8],
        ended: bool,
        out: &mut Vec<u8>,
    ) -> Result<LineTaken, AllocError>
        ensures ok { IfOk result (λ t. TellsMore out.old.items out.new.items (λ told. TakesBehindModule (record { text = text.now; ended = ended }) (head_of self.old) t told (head_of self.new))) }
        ensures err { OnErr result (out.new.items ≡ out.old.items) }
    {
        if begins_cert(text, ended) {
            return self.take_in_cert(alloc, text, ended, out);
        }
        self.take_behind(alloc, text, ended, out)
    }

    /// Takes a line behind lines that are skipped.
    fn take_behind_skipped(
        &mut self,
        alloc: Global,
        text: &[u8],
        ended: bool,
        out: &mut Vec<u8>,
    ) -> Result<LineTaken, AllocError>
        requires { self.old.before < 2 ^ 63 }
        ensures ok { IfOk result (λ t. TellsMore out.old.items out.new.items (λ told. TakesBehindSkipped (record { text = text.now; ended = ended }) (head_of self.old) t told (head_of self.new))) }
        ensures err { OnErr result (out.new.items ≡ out.old.items) }
    {
        if is_skipped(text, ended) {
            self.add(text, ended, HeadPlace::BehindSkipped)?;
            return Ok(LineTaken::More);
        }
        if self.parts.len() < MODULES && begins_module(text, ended) {
            return self.take_in_module(alloc, text, ended, out);
        }
        put_script_fault(alloc, out, self.before + 1)?;
        Ok(LineTaken::Over)
    }

    #[tactic(auto, unfolding(crate::specs::Heads::TakesLine))]
    /// Takes a line of a script, of which `number` is the number. Where it is a fault, that is told.
    pub fn take(
        &mut self,
        alloc: Global,
        number: usize,
        text: &[u8],
        ended: bool,
        out: &mut Vec<u8>,
    ) -> Result<LineTaken, AllocError>
        requires { (0 < number) × (self.old.before < 2 ^ 63) }
        ensures ok { IfOk result (λ t. TellsMore out.old.items out.new.items (λ told. TakesLine number (record { text = text.now; ended = ended }) (head_of self.old) t told (head_of self.new))) }
        ensures err { OnErr result (out.new.items ≡ out.old.items) }
    {
        match self.place {
            HeadPlace::InModule => self.take_in_module(alloc, text, ended, out),
            HeadPlace::InCert => self.take_in_cert(alloc, text, ended, out),
            HeadPlace::BehindModule => {
                self.before = number - 1;
                self.take_behind_module(alloc, text, ended, out)
            }
            HeadPlace::BehindCert => {
                self.before = number - 1;
                self.take_behind(alloc, text, ended, out)
            }
            HeadPlace::BehindSkipped => self.take_behind_skipped(alloc, text, ended, out),
            HeadPlace::BehindBudget => Ok(take_checked(text, ended)),
        }
    }

    #[tactic(auto, unfolding(crate::specs::Heads::EndsHead))]
    /// The script ends. Where a text is not at its end, or lines are skipped that no module text follows, that is told.
    pub fn end(&mut self, alloc: Global, out: &mut Vec<u8>) -> Result<LineTaken, AllocError>
        requires { self.old.before < 2 ^ 63 }
        ensures ok { IfOk result (λ t. TellsMore out.old.items out.new.items (λ told. EndsHead (head_of self.old) t told (head_of self.new))) }
        ensures err { OnErr result (out.new.items ≡ out.old.items) }
    {
        match self.place {
            HeadPlace::InModule => self.end_module(alloc, out),
            HeadPlace::InCert => self.end_cert(alloc, out),
            HeadPlace::BehindSkipped => {
                put_script_fault(alloc, out, self.before + 1)?;
                Ok(LineTaken::Over)
            }
            HeadPlace::BehindModule | HeadPlace::BehindCert | HeadPlace::BehindBudget => Ok(
                LineTaken::More,
            ),
        }
    }
}

/// Takes a line that may be `checked`, or else has to be a command.
fn take_checked(text: &[u8], ended: bool) -> LineTaken
    ensures { result ≡ taken_as (record { text = text.now; ended = ended }) }
{
    if is_checked(text, ended) {
        LineTaken::Checked
    } else {
        LineTaken::Command
    }
}
