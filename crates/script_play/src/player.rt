//! A script, played line by line.

ghost use Rattle.std.specs.Prelude.{◌≡◌, ◌<◌, ◌+◌, ◌^◌, ◌++◌, ℕ, true, List, length, take, IfOk, OnErr, OnOk};
ghost use Rattle.script_play.specs.Prelude.{lines_of, ScriptHead, no_head, TakesOneLine, MayBeginCommands, HasBegun, IsAt, TakesOn, EndsOn, Reading, ScriptBegins, TakesAt};
ghost use Rattle.script_play.specs.Prelude.{PlaysLine, TakesAll, is_over};
ghost use Rattle.script_play.specs.Written.{Stage as ModelStage};

use crate::session::Session;
use byte_text::first_line;
use filter_chain::{Rings, Stored};
use module_commands::Ended;
use script_text::{LineTaken, Texts, put_refused_module};
use std::alloc::{AllocError, Global};
use std::mem;

/// How far a script is.
#[derive(Drop)]
enum Stage<R: Rings<Stored>> {
    /// Its texts are read.
    Texts(Texts),
    /// Its commands are done.
    Session(Session<R>),
    /// It is over: a fault was told.
    Over,
}

/// A script that is played line by line.
#[derive(Drop)]
pub struct Player<R: Rings<Stored>> {
    alloc: Global,
    // How many lines were taken.
    lines: usize,
    stage: Stage<R>,
}

impl<R: Rings<Stored> + Drop> Player<R> {
    /// No line was taken yet.
    pub fn new(alloc: Global) -> Self
        ensures at { IsAt result (Reading no_head) }
        ensures lines { result.lines ≡ 0 }
    {
        Player {
            alloc,
            lines: 0,
            stage: Stage::Texts(Texts::new(alloc)),
        }
    }

    /// Whether a fault was told, behind which no line is looked at.
    pub fn is_over(&self) -> bool
        ensures { (s : ModelStage) → IsAt self.now s → result ≡ is_over s }
    {
        matches!(self.stage, Stage::Over)
    }

    /// The texts were read, and commands follow.
    fn begin(&mut self, is_checked: bool, out: &mut Vec<u8>) -> Result<(), AllocError>
        requires ready { (h : ScriptHead) × MayBeginCommands self.old.stage h }
        ensures ok { (h : ScriptHead) → MayBeginCommands self.old.stage h → OnOk result (TakesOneLine self.new out.old.items out.new.items (λ told s. ScriptBegins is_checked h told s)) }
        ensures err { OnErr result (out.new.items ≡ out.old.items) }
        ensures lines { self.new.lines ≡ self.old.lines }
    {
        let Stage::Texts(texts) = &mut self.stage else {
            return Ok(());
        };
        let budget = texts.budget;
        let parts = mem::replace(&mut texts.parts, Vec::new(self.alloc));
        if !is_checked {
            let session = Session::watched(self.alloc, parts, budget)?;
            self.turn_to(Stage::Session(session));
            return Ok(());
        }
        match Session::checked(self.alloc, parts, budget)? {
            Ok(session) => {
                self.turn_to(Stage::Session(session));
                Ok(())
            }
            Err(at) => {
                self.turn_to(Stage::Over);
                put_refused_module(self.alloc, out, at.index, at.refusal.pc, at.refusal.rule)
            }
        }
    }

    /// The script goes on so, or is over.
    // Apart from what is done for each line: a session that is dropped takes a large frame, which is set to zero at each call.
    #[inline(never)]
    fn turn_to(&mut self, stage: Stage<R>)
        ensures { self.new ≡ record self.old { stage = stage } }
    {
        self.stage = stage;
    }

    /// A fault was told: what is left of the script is not looked at.
    // Apart from what is done for each line: a stage takes a large frame.
    #[inline(never)]
    fn stop(&mut self)
        ensures { self.new ≡ record self.old { stage = Stage.Over } }
    {
        self.turn_to(Stage::Over);
    }

    /// Takes a line that has to be a command.
    fn take_command(
        &mut self,
        text: &[u8],
        ended: bool,
        out: &mut Vec<u8>,
    ) -> Result<(), AllocError>
        requires begun { (s : ModelStage) × IsAt self.old s × HasBegun s }
        ensures ok { (s : ModelStage) → IsAt self.old s → HasBegun s
            → OnOk result (TakesOneLine self.new out.old.items out.new.items (λ told t. TakesAt self.old.lines (record { text = text.now; ended = ended }) s told t)) }
        ensures err { OnErr result (out.new.items ≡ out.old.items) }
        ensures lines { self.new.lines ≡ self.old.lines }
    {
        let Stage::Session(session) = &mut self.stage else {
            return Ok(());
        };
        if !session.take(self.alloc, self.lines, text, ended, out)? {
            self.stop();
        }
        Ok(())
    }

    /// Takes a line, and adds what is answered to the text.
    fn take_line(&mut self, text: &[u8], ended: bool, out: &mut Vec<u8>) -> Result<(), AllocError>
        requires at { (s : ModelStage) × IsAt self.old s }
        requires few { self.old.lines < 2 ^ 62 }
        ensures ok { (s : ModelStage) → IsAt self.old s
            → OnOk result (TakesOneLine self.new out.old.items out.new.items (λ told t. PlaysLine (self.old.lines + 1) (record { text = text.now; ended = ended }) s told t)) }
        ensures err { OnErr result (out.new.items ≡ out.old.items) }
        ensures lines { self.new.lines ≡ self.old.lines + 1 }
    {
        self.lines += 1;
        let Stage::Texts(texts) = &mut self.stage else {
            return self.take_command(text, ended, out);
        };
        match texts.take(self.alloc, self.lines, text, ended, out)? {
            LineTaken::More => Ok(()),
            LineTaken::Over => {
                self.stop();
                Ok(())
            }
            LineTaken::Checked => self.begin(true, out),
            LineTaken::Command => {
                self.begin(false, out)?;
                self.take_command(text, ended, out)
            }
        }
    }

    /// Takes lines, up to the first fault, and adds what is answered to the text. Without memory what was answered so far is added.
    pub fn take(&mut self, lines: &[u8], out: &mut Vec<u8>) -> Result<(), AllocError>
        requires at { (s : ModelStage) × IsAt self.old s }
        requires few { self.old.lines + length lines.now < 2 ^ 62 }
        ensures ok { (s : ModelStage) → IsAt self.old s → OnOk result (TakesOn self.old self.new out.old.items out.new.items (lines_of lines.now) s) }
        ensures err { (s : ModelStage) → IsAt self.old s
            → OnErr result ((n : ℕ) × (told : List ℕ) × (last : ModelStage) × TakesAll (self.old.lines + 1) (take n (lines_of lines.now)) s told last
            × (out.new.items ≡ out.old.items ++ told)) }
    {
        let mut rest = lines;
        while !rest.is_empty() && !self.is_over() {
            let line = first_line(rest);
            self.take_line(line.text, line.ended, out)?;
            rest = &rest[line.width..];
        }
        Ok(())
    }

    /// The script has no more lines. Tells how the play ends, and adds what is answered of a text that is not at its end.
    pub fn end(&mut self, out: &mut Vec<u8>) -> Result<Ended, AllocError>
        requires at { (s : ModelStage) × IsAt self.old s }
        ensures ok { (s : ModelStage) → IsAt self.old s → IfOk result (λ e. EndsOn out.old.items out.new.items s e) }
        ensures err { OnErr result (out.new.items ≡ out.old.items) }
    {
        match &mut self.stage {
            Stage::Texts(texts) => match texts.end(self.alloc, out)? {
                LineTaken::Over => Ok(Ended::Refused),
                _ => Ok(Ended::Done),
            },
            Stage::Session(_) => Ok(Ended::Done),
            Stage::Over => Ok(Ended::Refused),
        }
    }
}
