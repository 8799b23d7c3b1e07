//! The command `new`.

ghost use Rattle.std.specs.Prelude.{◌≡◌, IfOk};
ghost use Rattle.module_commands.specs.declared.ended.Ended.TheVariants as ended;
ghost use Rattle.module_commands.specs.StreamFaults.{TellsOfWriter};
ghost use Rattle.module_commands.specs.Streams.{WritesText};

use crate::ended::Ended;
use crate::fault::PlayFault;
use crate::streams::write_text;
use byte_streams::Sink;

/// A module to begin with: it is accepted as it stands.
pub const FRAME: &str = concat!(
    "# A filter to begin with. `host_cli certify` accepts it as it stands.\n",
    "# It takes each bucket of a brigade, works on it, and passes it on in a brigade of its own.\n",
    "module 1\n",
    "# b0 is made for each request, on the request's pool, and ends with it.\n",
    "brigade b0 req\n",
    "open\n",
    "  ret ok\n",
    "init\n",
    "  bcreate b0\n",
    "  ret ok\n",
    "main\n",
    "  # behind the EOS of a request nothing is passed on\n",
    "  jsent gone\n",
    ":loop\n",
    "  # the first bucket of what came, as long as there is one\n",
    "  first c0 in\n",
    "  jend c0 out\n",
    "  unlink c0\n",
    "  # the EOS leaves the loop, whatever stands behind it\n",
    "  jkind c0 eos last\n",
    "  # c0 is data or FLUSH, and loose: work on it here.\n",
    "  # To read its bytes, ask `jkind c0 data work` before `unlink c0`, and `read c0 bad` behind `:work`.\n",
    "  tail b0 c0\n",
    "  jump loop\n",
    ":last\n",
    "  # what goes behind all data comes here: heap c1 \"..\", tail b0 c1\n",
    "  tail b0 c0\n",
    ":out\n",
    "  pass b0 bad\n",
    "  # a passed brigade is only cleaned, and then it may be used again\n",
    "  bclean b0\n",
    "  ret ok\n",
    ":gone\n",
    "  bclean in\n",
    "  ret ok\n",
    ":bad\n",
    "  # also where the next filter failed\n",
    "  bclean b0\n",
    "  ret fail\n",
    "end\n"
);

/// Writes a module to begin with, in which the work of a filter is to be filled in. `Write`: the writer failed, and what it took is the front of
/// the text. `NoMemory`: the writer had none for the text, and nothing is written.
pub fn run_new<W: Sink>(writer: &mut W) -> Result<Ended, PlayFault>
    ensures ended { IfOk result (λ e. e ≡ ended.Done) }
    ensures text { WritesText (W.contents writer.old) (W.contents writer.new) FRAME.now result }
    ensures writer { TellsOfWriter (W.failed writer.old) (W.failed writer.new) result }
    ensures silent { result ≡ Err PlayFault.NoMemory → W.unchanged writer.old writer.new }
{
    write_text(writer, FRAME.as_bytes())?;
    Ok(Ended::Done)
}
