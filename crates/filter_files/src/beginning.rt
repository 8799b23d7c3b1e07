//! The command `new --filter`.

ghost use Rattle.std.specs.Prelude.{◌≡◌, IfOk};
ghost use Rattle.module_commands.specs.declared.ended.Ended.TheVariants as ended;
ghost use Rattle.filter_files.specs.Prelude.{TellsOfWriter, WritesText};

use byte_streams::Sink;
use module_commands::{Ended, PlayFault, write_text};

/// A filter to begin with: it compiles as it stands.
pub const FILTER_FRAME: &str = concat!(
    "# A filter to begin with. `host compile` makes a module of it as it stands.\n",
    "# It puts a CR before each LF that has none. A comment goes to the end of its line.\n",
    "filter crlf\n",
    "\n",
    "# a number, which lasts for the request\n",
    "var last = 0\n",
    "\n",
    "# for each byte of the body; `on bucket` has whole pieces, `on match \"text\"` what stands there\n",
    "on byte b {\n",
    "  if b == '\\n' and last != '\\r' { emit '\\r' }\n",
    "  emit b\n",
    "  last = b\n",
    "}\n",
    "\n",
    "# what goes behind the body: on eos { emit \"..\" }\n"
);

/// Writes a filter to begin with. `Write`: the writer failed, and what it took is the front of the text. `NoMemory`: the writer had none for the
/// text, and nothing is written.
pub fn run_new_filter<W: Sink>(writer: &mut W) -> Result<Ended, PlayFault>
    ensures ended { IfOk result (λ e. e ≡ ended.Done) }
    ensures text { WritesText (W.contents writer.old) (W.contents writer.new) FILTER_FRAME.now result }
    ensures writer { TellsOfWriter (W.failed writer.old) (W.failed writer.new) result }
    ensures silent { result ≡ Err PlayFault.NoMemory → W.unchanged writer.old writer.new }
{
    write_text(writer, FILTER_FRAME.as_bytes())?;
    Ok(Ended::Done)
}
