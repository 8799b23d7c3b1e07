//! Certificates.

ghost use Rattle.std.specs.Prelude.{◌≡◌, true};
ghost use Rattle.life_check.specs.Versions.{is_in_range};

use crate::version::CertVersion;
use life_state::State;

/// States for a module: what is known between calls, and before each instruction that can be reached. Anybody may have made it.
#[derive(Drop)]
pub struct Cert {
    /// Of which version its text is.
    pub version: CertVersion,
    /// Whether states are given at heads alone: before the first instruction of each handler, and before each that some instruction
    /// names as its target. Those in between are what the rules hand on.
    pub slim: bool,
    /// Between calls, before `init`. None says that no call ends there.
    pub idle: Option<State>,
    /// Between calls, from `init` on to the end of the request. None says that no call ends there.
    pub ready: Option<State>,
    /// Before each instruction; one that is not there is never reached.
    pub at: Vec<Option<State>>,
    /// The numbers that version 2 names are those that a text may name.
    pub ghost in_range: { is_in_range version ≡ true },
}

impl Cert {
    ghost use Rattle.life_state.specs.Seen.{seen_some};
    ghost use Rattle.life_check.specs.Seen.{seen_cert};

    /// The state before an instruction; none beyond the last.
    pub fn state(&self, pc: usize) -> Option<State>
        ensures { seen_some result ≡ (seen_cert self.now).at pc }
    {
        if pc < self.at.len() {
            self.at[pc]
        } else {
            None
        }
    }
}
