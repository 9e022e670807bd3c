//! Writing the bytes that nodes spell (RFC 8949 sections 3.1 to 3.4).

ghost use Rattle.std.specs.Prelude.{◌≡◌, IfOk};
ghost use Rattle.cborn_wire.specs.Common.{trees, spelled, spelled_all};

use crate::Speller;
use cborn_model::{Spelled, visit_node};
use std::alloc::{AllocError, Global};

/// The bytes that `item` spells, each head in its width.
///
/// # Errors
/// `AllocError` if memory is refused.
pub fn spell(alloc: Global, item: &Spelled) -> Result<Vec<u8>, AllocError>
    ensures { IfOk result (λ v. v.items ≡ spelled item.now) }
{
    spell_all(alloc, std::slice::from_ref(item))
}

/// The bytes that the items spell, one after another: a sequence (RFC 8742).
///
/// # Errors
/// `AllocError` if memory is refused.
pub fn spell_all(alloc: Global, items: &[Spelled]) -> Result<Vec<u8>, AllocError>
    ensures { IfOk result (λ v. v.items ≡ spelled_all (trees items.now)) }
{
    let mut speller = Speller::new(alloc);
    for item in items {
        visit_node(&mut speller, item.node())?;
    }
    Ok(speller.finish())
}
