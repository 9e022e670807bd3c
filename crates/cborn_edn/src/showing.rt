//! Nodes, shown in the fixed notation.

ghost use Rattle.std.specs.Prelude.{IfOk, IfErr};
ghost use Rattle.std.specs.String.{string_bytes};
ghost use Rattle.cborn_edn.specs.Common.{trees};
ghost use Rattle.cborn_edn.specs.Cited.{Shown, IsShowFault};

use crate::{Notator, ShowFault};
use cborn_model::{Spelled, visit_node};
use std::alloc::Global;

/// The items in the fixed notation, as a text of both profiles. It has an indicator exactly where a
/// head isn't the shortest or a length is indefinite (RFC 8949 section 8.1). A comma and a line
/// feed separate items, and a line feed follows the last.
///
/// # Errors
/// `NotUtf8` with the lowest place of a text string or a text chunk that isn't UTF-8. `OutOfMemory`
/// if memory was refused.
#[tactic(auto, using(crate::proofs::Lemmas::error_is, crate::proofs::Common::take_all, crate::proofs::Lemmas::fits_whole))]
pub fn show(alloc: Global, items: &[Spelled]) -> Result<String, ShowFault>
    ensures shown { IfOk result (λ text. Shown (trees items.now) (string_bytes text)) }
    ensures refused { IfErr result (IsShowFault (trees items.now)) }
{
    let mut notator = Notator::new(alloc);
    for item in items {
        visit_node(&mut notator, item.node())?;
    }
    // Texts that are UTF-8 in a text that is otherwise ASCII.
    Ok(String::from_utf8(notator.finish()?).unwrap())
}
