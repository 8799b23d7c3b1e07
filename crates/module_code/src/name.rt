//! Names of labels.

ghost use Rattle.std.specs.Prelude.{◌≡◌};
ghost use Rattle.module_code.specs.Names.{name_of, is_name, is_letter, is_name_byte, all_name_bytes};

/// The name of a label, with zeros behind it.
pub type Name = [u8; 16];

fn is_letter(byte: u8) -> bool
    ensures { result ≡ is_letter byte }
{
    b'a' <= byte && byte <= b'z'
}

fn is_name_byte(byte: u8) -> bool
    ensures { result ≡ is_name_byte byte }
{
    is_letter(byte) || b'0' <= byte && byte <= b'9'
}

#[tactic(auto, unfolding(crate::specs::Names::all_name_bytes))]
fn all_name_bytes(token: &[u8]) -> bool
    ensures { result ≡ all_name_bytes token.now }
{
    token.iter().all(|byte| is_name_byte(*byte))
}

/// Whether a name is written so: a letter, then up to 15 letters or digits, lower case.
#[tactic(auto, unfolding(crate::specs::Names::is_name))]
pub fn is_name(token: &[u8]) -> bool
    ensures { result ≡ is_name token.now }
{
    1 <= token.len() && token.len() <= 16 && is_letter(token[0]) && all_name_bytes(token)
}

/// The name that is written so: a letter, then up to 15 letters or digits, lower case.
#[tactic(auto, unfolding(crate::specs::Names::name_of, crate::specs::Names::is_name))]
pub fn name_of(token: &[u8]) -> Option<Name>
    ensures { result ≡ name_of token.now }
{
    if !is_name(token) {
        return None;
    }
    let mut name = [0u8; 16];
    name[..token.len()].copy_from_slice(token);
    Some(name)
}
