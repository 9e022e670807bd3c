//! Single items of an input: to show them, and to compare them by their deterministic encodings.

use crate::byte_walks::{content_of, end_of_item, item_at, whole_head};
use crate::faults::{Found, answered};
use crate::quotes::{CutNotation, Escaped, Hex, PIECE, Text, front_of};
use cborn_edn::{Notated, show_bytes};
use cborn_engine::{Count, Kind, normalise_slice};
use cborn_model::{Bytewise, KeyOrder, Limit, Major};
use std::alloc::{AllocError, Global};
use std::borrow::CowSlice;

/// The most bytes of an item that is written as notation. Of a longer one only the start is read.
const LONG_ITEM: usize = 512;

/// Reads single items under a nesting limit.
#[derive(Clone, Copy)]
pub(crate) struct ItemReader {
    pub(crate) alloc: Global,
    pub(crate) limit: Limit,
}

impl ItemReader {
    /// The deterministic encoding of the one valid item that an input holds. `None`: it holds none.
    pub(crate) fn encoded<'a, O: KeyOrder>(
        &self,
        kind: Kind,
        input: &'a [u8],
    ) -> Found<CowSlice<'a, u8, Global>> {
        let (alloc, limit) = (self.alloc, self.limit);
        answered(normalise_slice::<O>(alloc, limit, Count::One, kind, Kind::Wire, input))
    }

    /// That encoding of the item that begins at the offset `at`.
    pub(crate) fn encoded_at<'a>(
        &self,
        bytes: &'a [u8],
        at: usize,
    ) -> Found<CowSlice<'a, u8, Global>> {
        self.encoded::<Bytewise>(Kind::Wire, item_at(self.alloc, bytes, at)?)
    }

    /// The first key from that at `at` on that is the same as `key`: the index of its pair, and its offset.
    pub(crate) fn find_key(&self, bytes: &[u8], mut at: usize, key: &[u8]) -> Found<(u64, usize)> {
        let Some(wanted) = self.encoded_at(key, 0)? else {
            return Ok(None);
        };
        'pairs: for index in 0..bytes.len() as u64 {
            if at >= bytes.len() {
                break;
            }
            let key = self.encoded_at(bytes, at)?;
            if key.is_some_and(|key| *key == *wanted) {
                return Ok(Some((index, at)));
            }
            at = end_of_item(self.alloc, bytes, at)?;
            at = end_of_item(self.alloc, bytes, at)?;
        }
        Ok(None)
    }

    /// The item that these bytes encode in the fixed notation, or where there is none in hexadecimal. Cut.
    pub(crate) fn notation(&self, item: &[u8]) -> Text {
        let alloc = self.alloc;
        let bytes = Hex(item, PIECE / 3);
        if item.len() <= LONG_ITEM {
            return match show_bytes(alloc, self.limit, item)? {
                Notated::Text(text) => format!(in alloc; "{}", CutNotation(text.trim_ascii_end())),
                _ => format!(in alloc; "{bytes}"),
            };
        }
        match whole_head(item) {
            Some((head, _)) => front(alloc, head.major_type(), content_of(item)),
            None => format!(in alloc; "{bytes}"),
        }
    }
}

/// The start of a long item, a string with this content or another of this major type.
fn front(alloc: Global, major: Major, content: &[u8]) -> Text {
    match major {
        Major::TextString if !content.is_empty() => {
            let text = front_of(content, PIECE);
            format!(in alloc; "\"{}\"..", Escaped { text })
        }
        Major::ByteString if !content.is_empty() => {
            let mut text = String::from_str(alloc, "h'")?;
            for byte in content.iter().take(PIECE / 3) {
                write!(text, "{byte:02x}")?;
            }
            text.push_str("'..")?;
            Ok(text)
        }
        Major::Array => format!(in alloc; "[..]"),
        Major::Map => format!(in alloc; "{{..}}"),
        Major::Tag => format!(in alloc; "a tag over a long item"),
        _ => format!(in alloc; "(_ ..)"),
    }
}
