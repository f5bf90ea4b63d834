//! The texts of a command's files, found by their roles.

ghost use Rattle.std.specs.Prelude.{◌≡◌, option_map};
ghost use Rattle.run_frame.specs.Forms.{texts_in};
ghost use Rattle.run_frame.specs.Texts.{limit_of, text_for, text_or_empty as text_or_empty_of};

use glass_base::limits::MOST_CERT_BYTES;
use glass_base::{Role, Run};

/// The text of a file.
#[derive(Drop)]
pub struct Text {
    pub role: Role,
    pub bytes: Run<u8>,
}

/// The greatest number of bytes of a file of this role.
pub fn limit(role: Role) -> u64
    ensures { result ≡ limit_of role }
{
    match role {
        Role::Cert => MOST_CERT_BYTES,
        Role::Batch | Role::Defects | Role::Params | Role::Plan | Role::Plates | Role::Sheet =>
            4_194_304,
    }
}

/// The text of this role, if there is one.
pub fn text_of_role(texts: &[Text], role: Role) -> Option<&[u8]>
    ensures { option_map (λ bytes. bytes.now) result ≡ text_for (texts_in texts.now) role }
{
    texts
        .iter()
        .find(|text| role.is(text.role))
        .map(|text| text.bytes.as_slice())
}

/// The text of this role, empty where there is none.
pub fn text_or_empty(texts: &[Text], role: Role) -> &[u8]
    ensures { result.now ≡ text_or_empty_of (texts_in texts.now) role }
{
    match text_of_role(texts, role) {
        Some(bytes) => bytes,
        None => &[],
    }
}
