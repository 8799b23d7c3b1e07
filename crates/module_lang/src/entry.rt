//! Lines that are taken into a draft.

ghost use Rattle.std.specs.Prelude.{◌≡◌, ◌++◌, [], OnOk, option_to_list};
ghost use Rattle.module_lang.specs.Entries.{from_quote, step_texts};

use crate::draft::{Draft, DraftStep};
use crate::lines::{Line, has_text, read_line};
use crate::operand::operand_place;
use crate::refusal::AsmRefusal;
use byte_text::{TakesLines, unquote};
use module_code::{Op, Operands, Part, Seq, Word};
use std::alloc::{AllocError, Global};

/// The bytes from the first quote on.
fn from_quote(line: &[u8]) -> &[u8]
    ensures { result.now ≡ from_quote line.now }
{
    for (i, byte) in line.iter().enumerate() {
        if *byte == b'"' {
            return &line[i..];
        }
    }
    &line[line.len()..]
}

fn push_text(texts: &mut Seq<Seq<u8>>, text: Option<Seq<u8>>) -> Result<(), AllocError>
    ensures { OnOk result (texts.new ≡ texts.old ++ option_to_list text) }
{
    match text {
        Some(text) => texts.push(text),
        None => Ok(()),
    }
}

/// Adds the text of a line, if its operands have one.
fn add_texts(
    alloc: Global,
    texts: &mut Seq<Seq<u8>>,
    line: &[u8],
    operands: Operands,
) -> Result<(), AllocError>
    ensures { OnOk result (texts.new ≡ texts.old ++ step_texts operands line.now) }
{
    if !has_text(operands) {
        return Ok(());
    }
    let text = unquote(alloc, from_quote(line))?;
    push_text(texts, text)
}

impl Draft {
    ghost use Rattle.std.specs.Prelude.{◌≡◌, ◌≤◌, OnOk, length};
    ghost use Rattle.module_lang.specs.Codes.{Gives};
    ghost use Rattle.module_lang.specs.Entries.{step_entered, item_entered, entered, IsDraft};
    ghost use Rattle.module_lang.specs.Lines.{line_taken};

    fn enter_step(
        &mut self,
        alloc: Global,
        number: usize,
        line: &[u8],
        op: Op,
        operands: Operands,
    ) -> Result<(), AllocError>
        requires { length self.old.texts ≤ 64 }
        ensures { OnOk result (self.new ≡ step_entered self.old number line.now op operands) }
    {
        let text = self.texts.len() as u8;
        add_texts(alloc, &mut self.texts, line, operands)?;
        self.add_step(DraftStep {
            line: number,
            op,
            operands,
            text,
        })
    }

    fn enter_brigade(&mut self, operands: Operands) -> Result<(), AllocError>
        ensures { OnOk result (self.new ≡ item_entered self.old 0 [] Word.Brigade operands) }
    {
        self.brigades.push(operand_place(operands.second))?;
        self.part = Part::Brigades;
        Ok(())
    }

    fn enter_item(
        &mut self,
        alloc: Global,
        number: usize,
        line: &[u8],
        word: Word,
        operands: Operands,
    ) -> Result<(), AllocError>
        requires { length self.old.texts ≤ 64 }
        ensures { OnOk result (self.new ≡ item_entered self.old number line.now word operands) }
    {
        match word {
            Word::Module => self.begin(Part::Pools, number),
            Word::Pool => return self.pools.push(operand_place(operands.second)),
            Word::Brigade => return self.enter_brigade(operands),
            Word::Open => self.begin(Part::Open, number),
            Word::Init => self.begin(Part::Init, number),
            Word::Main => self.begin(Part::Main, number),
            Word::End => self.begin(Part::End, number),
            Word::Op(op) => return self.enter_step(alloc, number, line, op, operands),
        }
        Ok(())
    }

    fn enter(
        &mut self,
        alloc: Global,
        number: usize,
        bytes: &[u8],
        line: Line,
    ) -> Result<(), AllocError>
        requires { length self.old.texts ≤ 64 }
        ensures { OnOk result (self.new ≡ entered self.old number bytes.now line) }
    {
        match line {
            Line::Skipped => Ok(()),
            Line::Label(name) => self.add_label(number, name),
            Line::Item(word, operands) => self.enter_item(alloc, number, bytes, word, operands),
        }
    }
}

impl TakesLines for Draft {
    ghost use Rattle.module_lang.specs.Codes.{Gives};
    ghost use Rattle.module_lang.specs.Entries.{IsDraft};
    ghost use Rattle.module_lang.specs.Lines.{line_taken};

    type Refusal = AsmRefusal;

    ghost can_take = { λ draft. IsDraft draft };

    ghost takes = { λ draft number line answer next. Gives (λ _. next) answer (line_taken draft number line) };

    #[tactic(auto, unfolding(crate::specs::Lines::line_taken))]
    fn take_line(&mut self, alloc: Global, number: usize, line: &[u8]) -> Result<(), AsmRefusal> {
        match read_line(self, line) {
            Ok(said) => Ok(self.enter(alloc, number, line, said)?),
            Err(code) => Err(AsmRefusal::Fault { line: number, code }),
        }
    }
}
