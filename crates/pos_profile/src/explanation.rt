//! What is wrong with a profile, for its writer.
ghost use Rattle.std.specs.Prelude.{IfOk};
ghost use Rattle.toml.specs.Parse.{parse_document};
ghost use Rattle.pos_profile.specs.Mistakes.{Explains};

use crate::mistake::Mistake;
use crate::root::{DocumentFault, read_document};
use pos_service::NoMemory;
use std::alloc::Global;

/// Returns what isn't sound in a profile's text, for its writer: the mistake with the number of the refusal `BadEntry`
/// of `Profile::from_text`. It is `None` if the text is no TOML document, or each entry of it is sound.
///
/// # Errors
///
/// [`NoMemory`] if memory ran out.
pub fn find_mistake(alloc: Global, text: &str) -> Result<Option<Mistake>, NoMemory>
    ensures { IfOk result (Explains (parse_document text.now)) }
{
    let root = match toml::table_from_str(alloc, text) {
        Ok(root) => root,
        Err(error) if error.is_memory() => return Err(NoMemory),
        Err(_) => return Ok(None),
    };
    match read_document(alloc, &root) {
        Ok(_) => Ok(None),
        Err(DocumentFault::Mistaken(mistake)) => Ok(Some(mistake)),
        Err(DocumentFault::NoMemory) => Err(NoMemory),
    }
}
