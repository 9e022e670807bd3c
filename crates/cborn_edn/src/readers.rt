//! Notation, read as nodes.

ghost use Rattle.std.specs.Prelude.{IfOk, IfErr};
ghost use Rattle.cborn_edn.specs.Common.{trees};
ghost use Rattle.cborn_edn.specs.Cited.{Notates, IsNoNotation};

use crate::EdnFault;
use crate::passes::visit_text;
use cborn_lex::Profile;
use cborn_model::{Limit, Spelled};
use cborn_wire::Nodes;
use std::alloc::Global;

/// The nodes that `text` notates in that profile of the notation, none of them deeper than `limit`
/// (RFC 8949 section 8, RFC 8610 appendix G). The place of a node is the offset of its first token,
/// and that of a chunk the offset of its first piece, in bytes from the start of the text.
///
/// # Errors
/// Those of [`read_text`](crate::read_text).
pub fn read_notation(
    alloc: Global,
    limit: Limit,
    profile: Profile,
    text: &str,
) -> Result<Vec<Spelled>, EdnFault>
    ensures notates { IfOk result (λ items. Notates profile limit text.now (trees items.items)) }
    ensures refused { IfErr result (IsNoNotation profile limit text.now) }
{
    let _most = limit.get();
    let mut nodes = Nodes::new(alloc);
    visit_text(alloc, limit, profile, text, &mut nodes)?;
    Ok(nodes.finish()?)
}
