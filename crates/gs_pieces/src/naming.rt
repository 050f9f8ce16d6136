// Names of files in texts.
ghost use Rattle.gs_pieces.specs.Places.{NameIs};

use gs_types::Name;

/// The name that a text is; `None` where it is none, as `Name::read` says.
pub fn name_in(text: &[u8]) -> Option<Name>
    ensures { NameIs text.now result }
{
    match Name::read(text) {
        Ok(name) => Some(name),
        Err(_) => None,
    }
}
