//! Modules as texts.

ghost use Rattle.std.specs.Prelude.{◌≡◌, ℕ, ◌<◌, ◌≤◌, ◌∷◌, ◌++◌, [], Some, true, All, List, decimal, length, map, slice_get, is_some};
ghost use Rattle.module_lang.specs.Prelude.{place_is_declared, is_value, is_number, label_line, is_target, printed, target_name, IsModule, fits, target, spelling, shown_arg, shown_args, AreShort};
ghost use Rattle.module_lang.specs.Prelude.{HasDigit, IsShortArg, shown_line, shown_step, shown_code, shown_declarations, shown_handler, brigade_text, brigade_texts, code_text, cursor_text, joined};
ghost use Rattle.module_lang.specs.Prelude.{operands_text, own_text, place_text, pool_texts, status_text, value_text, variable_text, IsTextOf, kind_test_text, Wrote, writer_state};

use byte_text::{TextWriter, WriteFault, print_text, put_all};
use itoa::Buffer;
use module_code::parts::parts;
use module_code::{Arg, Args, Instr, KindTest, Module, PoolRef, Status, Value, VarRef};
use std::io::Write;
use std::ops::Range;

fn aims_at(instr: Instr, number: usize) -> bool
    ensures { result ≡ is_number number (target instr) }
{
    match instr.named_target() {
        Some(l) => usize::from(l) == number,
        None => false,
    }
}

/// Whether an instruction has the instruction of this number as its target.
#[tactic(auto, unfolding(crate::specs::Printing::is_target))]
fn is_target(code: &[Instr], number: usize) -> bool
    ensures { result ≡ is_target code.now number }
{
    code.iter().any(|instr| aims_at(*instr, number))
}

/// The name of the label before the instruction of this number.
fn put_name<W: Write>(out: &mut TextWriter<W>, number: usize) -> Result<(), WriteFault>
    ensures { Wrote result (writer_state W.contents out.old) (writer_state W.contents out.new) (target_name number) }
{
    let mut digits = Buffer::new();
    put_all(out, b"i")?;
    put_all(out, digits.format(number).as_bytes())
}

fn put_target<W: Write>(out: &mut TextWriter<W>, number: usize) -> Result<(), WriteFault>
    ensures { Wrote result (writer_state W.contents out.old) (writer_state W.contents out.new) (operands_text (target_name number ∷ [])) }
{
    put_all(out, b" ")?;
    put_name(out, number)
}

fn put_place<W: Write>(out: &mut TextWriter<W>, place: PoolRef) -> Result<(), WriteFault>
    requires { place_is_declared 8 place ≡ true }
    ensures { Wrote result (writer_state W.contents out.old) (writer_state W.contents out.new) (operands_text (place_text place ∷ [])) }
{
    match place {
        PoolRef::Conn => put_all(out, b" conn"),
        PoolRef::Req => put_all(out, b" req"),
        PoolRef::Own(pool) => put_all(out, &[b' ', b'p', b'0' + pool]),
    }
}

fn put_own<W: Write>(out: &mut TextWriter<W>, brigade: u8) -> Result<(), WriteFault>
    requires { brigade < 8 }
    ensures { Wrote result (writer_state W.contents out.old) (writer_state W.contents out.new) (operands_text (own_text brigade ∷ [])) }
{
    put_all(out, &[b' ', b'b', b'0' + brigade])
}

fn put_source<W: Write>(out: &mut TextWriter<W>, brigade: u8) -> Result<(), WriteFault>
    requires { IsShortArg [] (Arg.Source brigade) }
    ensures { Wrote result (writer_state W.contents out.old) (writer_state W.contents out.new) (operands_text (brigade_text brigade ∷ [])) }
{
    if brigade == 8 {
        return put_all(out, b" in");
    }
    put_own(out, brigade)
}

fn put_variable<W: Write>(out: &mut TextWriter<W>, variable: VarRef) -> Result<(), WriteFault>
    requires { HasDigit variable }
    ensures { Wrote result (writer_state W.contents out.old) (writer_state W.contents out.new) (operands_text (variable_text variable ∷ [])) }
{
    match variable {
        VarRef::Pool(pool) => put_place(out, PoolRef::Own(pool)),
        VarRef::Brigade(brigade) => put_own(out, brigade),
    }
}

fn put_status<W: Write>(out: &mut TextWriter<W>, status: Status) -> Result<(), WriteFault>
    ensures { Wrote result (writer_state W.contents out.old) (writer_state W.contents out.new) (operands_text (status_text status ∷ [])) }
{
    match status {
        Status::Success => put_all(out, b" ok"),
        Status::Fail => put_all(out, b" fail"),
    }
}

fn put_constant<W: Write>(out: &mut TextWriter<W>, constant: u32) -> Result<(), WriteFault>
    ensures { Wrote result (writer_state W.contents out.old) (writer_state W.contents out.new) (operands_text (decimal constant ∷ [])) }
{
    let mut digits = Buffer::new();
    put_all(out, b" ")?;
    put_all(out, digits.format(constant).as_bytes())
}

fn put_value<W: Write>(out: &mut TextWriter<W>, value: Value) -> Result<(), WriteFault>
    requires { is_value value ≡ true }
    ensures { Wrote result (writer_state W.contents out.old) (writer_state W.contents out.new) (operands_text (value_text value ∷ [])) }
{
    match value {
        Value::Number(number) => put_all(out, &[b' ', b'n', b'0' + number]),
        Value::Constant(constant) => put_constant(out, constant),
    }
}

fn put_cursor<W: Write>(out: &mut TextWriter<W>, cursor: u8) -> Result<(), WriteFault>
    requires { cursor < 8 }
    ensures { Wrote result (writer_state W.contents out.old) (writer_state W.contents out.new) (operands_text (cursor_text cursor ∷ [])) }
{
    put_all(out, &[b' ', b'c', b'0' + cursor])
}

fn put_kind_test<W: Write>(out: &mut TextWriter<W>, kind: KindTest) -> Result<(), WriteFault>
    ensures { Wrote result (writer_state W.contents out.old) (writer_state W.contents out.new) (operands_text (kind_test_text kind ∷ [])) }
{
    put_all(out, b" ")?;
    put_all(out, kind.text())
}

fn put_text<W: Write>(out: &mut TextWriter<W>, text: &[u8]) -> Result<(), WriteFault>
    ensures { Wrote result (writer_state W.contents out.old) (writer_state W.contents out.new) (operands_text (spelling text.now ∷ [])) }
{
    put_all(out, b" ")?;
    print_text(out, text)
}

/// An operand, with the space before it.
#[tactic(auto, unfolding(module_code::specs::Program::text_at))]
fn put_arg<W: Write>(out: &mut TextWriter<W>, module: &Module, arg: Arg) -> Result<(), WriteFault>
    requires { IsShortArg «module».now.texts arg }
    ensures { Wrote result (writer_state W.contents out.old) (writer_state W.contents out.new) (shown_arg «module».now.texts arg) }
{
    match arg {
        Arg::Nothing => Ok(()),
        Arg::Place(place) => put_place(out, place),
        Arg::Pool(pool) => put_place(out, PoolRef::Own(pool)),
        Arg::Brigade(brigade) => put_own(out, brigade),
        Arg::Source(brigade) => put_source(out, brigade),
        Arg::Ending(status) => put_status(out, status),
        Arg::Target(number) => put_target(out, usize::from(number)),
        Arg::Text(number) => put_text(out, module.text(number)),
        Arg::Variable(variable) => put_variable(out, variable),
        Arg::Number(number) => put_value(out, Value::Number(number)),
        Arg::Value(value) => put_value(out, value),
        Arg::Cursor(cursor) => put_cursor(out, cursor),
        Arg::KindTest(kind) => put_kind_test(out, kind),
    }
}

fn put_args<W: Write>(
    out: &mut TextWriter<W>,
    module: &Module,
    args: Args,
) -> Result<(), WriteFault>
    requires { AreShort «module».now.texts args }
    ensures { Wrote result (writer_state W.contents out.old) (writer_state W.contents out.new) (shown_args «module».now.texts args) }
{
    put_arg(out, module, args.first)?;
    put_arg(out, module, args.second)?;
    put_arg(out, module, args.third)?;
    put_arg(out, module, args.fourth)
}

/// A line of a word and its operands.
fn put_line<W: Write>(
    out: &mut TextWriter<W>,
    module: &Module,
    word: &[u8],
    args: Args,
) -> Result<(), WriteFault>
    requires { AreShort «module».now.texts args }
    ensures { Wrote result (writer_state W.contents out.old) (writer_state W.contents out.new) (shown_line «module».now.texts word.now args) }
{
    put_all(out, word)?;
    put_args(out, module, args)?;
    put_all(out, b"\n")
}

/// The line of an instruction of a module.
fn put_step<W: Write>(
    out: &mut TextWriter<W>,
    module: &Module,
    instr: Instr,
) -> Result<(), WriteFault>
    requires pools { length «module».now.pools ≤ 8 }
    requires brigades { length «module».now.brigades ≤ 8 }
    requires fit { fits «module».now instr ≡ true }
    ensures { Wrote result (writer_state W.contents out.old) (writer_state W.contents out.new) (shown_step «module».now.texts instr) }
{
    let (op, args) = parts(instr);
    put_line(out, module, op.text(), args)
}

/// The line of the label before the instruction of this number.
fn put_label<W: Write>(out: &mut TextWriter<W>, number: usize) -> Result<(), WriteFault>
    ensures { Wrote result (writer_state W.contents out.old) (writer_state W.contents out.new) (58 ∷ target_name number ++ 10 ∷ []) }
{
    put_all(out, b":")?;
    put_name(out, number)?;
    put_all(out, b"\n")
}

/// The same, if that instruction is a target.
fn put_label_before<W: Write>(
    out: &mut TextWriter<W>,
    code: &[Instr],
    number: usize,
) -> Result<(), WriteFault>
    ensures { Wrote result (writer_state W.contents out.old) (writer_state W.contents out.new) (joined (map code_text (label_line code.now number))) }
{
    if is_target(code, number) {
        put_label(out, number)
    } else {
        Ok(())
    }
}

/// The lines of the instructions from one number up to another.
fn put_code<W: Write>(
    out: &mut TextWriter<W>,
    module: &Module,
    from: usize,
    to: usize,
) -> Result<(), WriteFault>
    requires { to ≤ length «module».now.code }
    ensures { Wrote result (writer_state W.contents out.old) (writer_state W.contents out.new) (shown_code «module».now.texts «module».now.code from to) }
{
    for number in from..to {
        let instr = module.at(number);
        put_label_before(out, module.code(), number)?;
        put_step(out, module, instr)?;
    }
    Ok(())
}

fn put_pools<W: Write>(
    out: &mut TextWriter<W>,
    module: &Module,
    pools: &[PoolRef],
) -> Result<(), WriteFault>
    requires few { length pools.now ≤ 8 }
    requires short { All (λ q. place_is_declared 8 q ≡ true) pools.now }
    ensures { Wrote result (writer_state W.contents out.old) (writer_state W.contents out.new) (joined (pool_texts 0 pools.now)) }
{
    for (i, parent) in pools.iter().enumerate() {
        let args = Args::two(Arg::Pool(i as u8), Arg::Place(*parent));
        put_line(out, module, b"pool", args)?;
    }
    Ok(())
}

fn put_brigades<W: Write>(
    out: &mut TextWriter<W>,
    module: &Module,
    brigades: &[PoolRef],
) -> Result<(), WriteFault>
    requires few { length brigades.now ≤ 8 }
    requires short { All (λ q. place_is_declared 8 q ≡ true) brigades.now }
    ensures { Wrote result (writer_state W.contents out.old) (writer_state W.contents out.new) (joined (brigade_texts 0 brigades.now)) }
{
    for (i, pool) in brigades.iter().enumerate() {
        let args = Args::two(Arg::Brigade(i as u8), Arg::Place(*pool));
        put_line(out, module, b"brigade", args)?;
    }
    Ok(())
}

/// The declarations, behind the line of the version.
fn put_declarations<W: Write>(out: &mut TextWriter<W>, module: &Module) -> Result<(), WriteFault>
    requires { IsModule «module».now }
    ensures { Wrote result (writer_state W.contents out.old) (writer_state W.contents out.new) (shown_declarations «module».now) }
{
    put_all(out, b"module 1\n")?;
    put_pools(out, module, module.pools())?;
    put_brigades(out, module, module.brigades())
}

/// The line of a handler, and those of its instructions.
fn put_handler<W: Write>(
    out: &mut TextWriter<W>,
    word: &[u8],
    module: &Module,
    range: Range<usize>,
) -> Result<(), WriteFault>
    requires { range.end ≤ length «module».now.code }
    ensures { Wrote result (writer_state W.contents out.old) (writer_state W.contents out.new) (shown_handler word.now «module».now.texts «module».now.code range.start range.end) }
{
    put_line(out, module, word, Args::none())?;
    put_code(out, module, range.start, range.end)
}

/// Writes the text of a module: no comment, no empty line and no space before a line; a label `:iN` before each
/// instruction N that is a target; texts as `print_text` writes them. Takes no memory.
///
/// `WriteFault`: the writer failed or took no byte; a front of the text is written. `assemble` takes the text as the
/// same module.
pub fn print_module<W: Write>(module: &Module, out: &mut TextWriter<W>) -> Result<(), WriteFault>
    ensures written { Wrote result (writer_state W.contents out.old) (writer_state W.contents out.new) (printed «module».now) }
    ensures round { IsTextOf (printed «module».now) «module».now }
{
    let end = module.code().len();
    let init = module.init();
    let main = module.main();
    put_declarations(out, module)?;
    put_handler(out, b"open", module, 0..init)?;
    put_handler(out, b"init", module, init..main)?;
    put_handler(out, b"main", module, main..end)?;
    put_all(out, b"end\n")
}
