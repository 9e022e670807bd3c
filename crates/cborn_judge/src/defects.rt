//! Defects: where a spelling departs from the deterministic encoding (RFC 8949 section 4.2).

ghost use Rattle.std.specs.Prelude.{◌≡◌};
ghost use Rattle.cborn_judge.specs.Reasons.{defect_rank};

use cborn_model::Fault;
use thiserror::Error;

/// How the spelling of an item departs from its deterministic encoding. The reasons are numbered
/// from 1 in this order.
#[derive(Clone, Copy, PartialEq, Eq, Debug, Error)]
pub enum DefectReason {
    /// A head is not the shortest for its argument (RFC 8949 section 4.2.1).
    #[error("long head")]
    LongHead,
    /// A string, an array or a map has an indefinite length (RFC 8949 section 4.2.1).
    #[error("indefinite length")]
    EndlessLength,
    /// The bytes of a bignum begin with a zero, or fit 64 bits (RFC 8949 section 3.4.3).
    #[error("loose bignum")]
    LooseBignum,
    /// The encoding of a key is not above that of the key before it (RFC 8949 sections 4.2.1 and
    /// 4.2.3).
    #[error("key order")]
    KeyOrder,
}

/// A departure from the deterministic encoding. `place` is the offset of the head of the node,
/// chunk, tag or key that departs, in bytes from the start of the input that the node was read
/// from.
#[derive(Clone, Copy, PartialEq, Eq, Debug, Error)]
#[error("offset {place}: {reason}")]
pub struct Defect {
    pub place: u64,
    pub reason: DefectReason,
}

impl DefectReason {
    /// The number of the reason, from 1.
    fn number(self) -> u8
        ensures { result ≡ defect_rank self }
    {
        self as u8 + 1
    }
}

impl Fault for Defect {
    ghost key = { λ d. (d.place, defect_rank d.reason) };

    fn place_and_number(self) -> (u64, u8) {
        (self.place, self.reason.number())
    }
}
