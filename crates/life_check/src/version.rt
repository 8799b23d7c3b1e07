//! The versions of certificates.

ghost use Rattle.std.specs.Prelude.{◌≡◌, true};
ghost use Rattle.life_check.specs.Versions.{is_in_range, version_two};

use module_code::Module;

/// Which version a certificate is of.
#[derive(Clone, Copy)]
pub enum CertVersion {
    /// Each line of its text writes its state out.
    One,
    /// Its text names the shape of its module, and a state that stands on an earlier numbered line by the number of the first such line.
    Two {
        /// How many pool variables the module declares, 8 at most.
        pools: u8,
        /// How many brigade variables it declares, 8 at most.
        brigades: u8,
        /// How many instructions it has, 1 to 1024.
        code: u16,
    },
}

impl CertVersion {
    /// Version 2, with the shape of a module.
    pub fn two(code: &Module) -> CertVersion
        ensures value { result ≡ version_two code.now }
        ensures named { is_in_range result ≡ true }
    {
        CertVersion::Two {
            pools: code.pool_count(),
            brigades: code.brigade_count(),
            code: code.len() as u16,
        }
    }
}
