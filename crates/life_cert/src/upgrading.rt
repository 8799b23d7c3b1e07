//! Certificates of version 1 as certificates of version 2.

ghost use Rattle.std.specs.Prelude.{◌≡◌, IfErr, OnOk};
ghost use Rattle.life_cert.specs.Prelude.{Accepts, seen_cert, version_two};
ghost use Rattle.life_cert.specs.Upgrades.{IsUpgradeRefusal};
ghost use Rattle.life_check.specs.declared.version.CertVersion.TheVariants as version;

use crate::print::is_two;
use crate::refusal::UpgradeRefusal;
use life_check::{Cert, CertVersion, check};
use module_code::Module;

/// Carries an accepted certificate of version 1 over to version 2: the same states, slim where it was. What comes of it is accepted.
/// Takes no memory.
///
/// `Already`: it is of version 2. `At`: `check` refuses it, there and so. Refused, it stays as it is.
pub fn upgrade(code: &Module, cert: &mut Cert) -> Result<(), UpgradeRefusal>
    ensures version { OnOk result (cert.new.version ≡ version_two code.now) }
    ensures slim { OnOk result (cert.new.slim ≡ cert.old.slim) }
    ensures states { OnOk result (seen_cert cert.new ≡ seen_cert cert.old) }
    ensures accepted { OnOk result (Accepts code.now cert.old × Accepts code.now cert.new) }
    ensures first { OnOk result (cert.old.version ≡ version.One) }
    ensures refused { IfErr result (λ e. IsUpgradeRefusal code.now cert.old e × (cert.new ≡ cert.old)) }
{
    if is_two(cert.version) {
        return Err(UpgradeRefusal::Already);
    }
    check(code, cert)?;
    cert.version = CertVersion::two(code);
    Ok(())
}
