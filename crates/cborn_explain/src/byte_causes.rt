//! Why bytes are refused or aren't deterministic: a sentence for each reason.

use crate::byte_walks::{Walk, content_len, content_of, item_at, place_in, whole_head};
use crate::faults::{Found, count_sentence};
use crate::items::ItemReader;
use crate::quotes::{Hex, Text, slice_of, valid_front};
use cborn_edn::ShowFault;
use cborn_engine::{CountFault, EngineFault, Kind};
use cborn_judge::{DefectReason, Invalid, InvalidReason};
use cborn_model::{Bytewise, KeyOrder, LengthFirst, Major, shortest};
use cborn_wire::{
    Argument, Head, HeadRead, Level, LevelKind, WireFault, WireReason, head_bytes, read_head,
};
use std::alloc::{AllocError, Global};
use std::cmp::Ordering;

/// How many bytes of an encoding are written at most.
const ENCODING: usize = 16;

/// Bytes that are refused or aren't deterministic, and where.
#[derive(Drop)]
pub(crate) struct RefusedBytes<'a> {
    /// It has the nesting limit under which they are refused.
    pub(crate) items: ItemReader,
    /// The offset in bytes that was reported with the reason.
    pub(crate) place: usize,
    /// A walk to it: to the head that begins there, or to the one whose argument or string it is in.
    pub(crate) walk: Walk<'a>,
}

impl<'a> RefusedBytes<'a> {
    pub(crate) fn at(items: ItemReader, bytes: &'a [u8], place: u64) -> Result<Self, AllocError> {
        let place = place_in(bytes, place);
        let walk = Walk::to(items.alloc, bytes, place)?;
        Ok(RefusedBytes { items, place, walk })
    }

    /// The sentence for a fault. Empty where it is none of the content of bytes.
    pub(crate) fn fault(&self, fault: CountFault) -> Text {
        match fault {
            CountFault::Engine(EngineFault::Wire(WireFault::Refused { reason, .. })) =>
                self.malformed(reason),
            CountFault::Engine(EngineFault::Invalid(Invalid::Refused { reason, .. })) =>
                match reason {
                    InvalidReason::NotUtf8 => self.not_utf8(),
                    InvalidReason::BadBignum => self.bad_bignum(),
                    InvalidReason::DuplicateKey => self.duplicate_key(),
                },
            CountFault::Engine(EngineFault::Show(ShowFault::NotUtf8 { .. })) => self.not_utf8(),
            _ => String::from_str(self.items.alloc, count_sentence(fault)),
        }
    }

    /// The sentence for a defect.
    pub(crate) fn defect(&self, reason: DefectReason) -> Text {
        match reason {
            DefectReason::LongHead => self.long_head(),
            DefectReason::EndlessLength => format!(in self.items.alloc;
                "the {} has an indefinite length, and the deterministic encoding tells each length in the head",
                kind_of(self.first())
            ),
            DefectReason::LooseBignum => self.loose_bignum(),
            DefectReason::KeyOrder => self.key_order(),
        }
    }

    /// The bytes from the head on to which the walk has come.
    fn rest(&self) -> &'a [u8] {
        slice_of(self.walk.bytes, self.walk.at, self.walk.bytes.len())
    }

    /// The first byte of that head. 0: the input ends there.
    fn first(&self) -> u8 {
        self.rest().first().copied().unwrap_or(0)
    }

    /// Why the bytes aren't well-formed.
    fn malformed(&self, reason: WireReason) -> Text {
        let (alloc, level) = (self.items.alloc, self.walk.innermost());
        let first = self.first();
        let (kind, information, place) = (kind_of(first), first % 32, level.place);
        let missing = missing(alloc, level)?;
        match reason {
            WireReason::ReservedInfo => format!(in alloc;
                "the low five bits of the initial byte {first:02x} are {information}, and no head has 28, 29 or 30 there"
            ),
            WireReason::EndlessNotAllowed => format!(in alloc;
                "the initial byte {first:02x} gives the {kind} an indefinite length, which only strings, arrays and maps have"
            ),
            WireReason::BadChunk => format!(in alloc;
                "an indefinite-length string is open since offset {place}: only definite-length strings of its kind may follow, or the break ff"
            ),
            WireReason::UnexpectedBreak => format!(in alloc;
                "a break ends an indefinite length, and {missing}"
            ),
            WireReason::FloatLeftOut => {
                let bits = head_len(first).saturating_sub(1).saturating_mul(8);
                format!(in alloc; "a float of {bits} bits begins here, and floats are left out")
            }
            WireReason::BadSimple => {
                let second = self.rest().get(1).copied().unwrap_or(0);
                format!(in alloc;
                    "after f8 comes {second:02x}, the simple value {second}: none below 32 has two bytes"
                )
            }
            WireReason::TooDeep => too_deep(&self.items, "arrays, maps and tags"),
            WireReason::Truncated if !self.rest().is_empty() => self.cut_head(),
            WireReason::Truncated if level.kind == LevelKind::Sequence => format!(in alloc;
                "the input ends"
            ),
            WireReason::Truncated => format!(in alloc; "the input ends, and {missing}"),
        }
    }

    /// The bytes of the item at the place.
    fn item(&self) -> Result<&'a [u8], AllocError> {
        item_at(self.items.alloc, self.walk.bytes, self.walk.at)
    }

    /// Which key the key at the place repeats.
    fn duplicate_key(&self) -> Text {
        let alloc = self.items.alloc;
        let key = self.items.notation(self.item()?)?;
        let map = self.walk.innermost().place as usize;
        let before = slice_of(self.walk.bytes, map, self.walk.at);
        let begin = whole_head(before).map_or(0, |(_, len)| len);
        let Some((_, at)) = self.items.find_key(before, begin, self.rest())? else {
            return format!(in alloc; "the key {key} is the same as an earlier key of this map");
        };
        let place = map.saturating_add(at);
        format!(in alloc; "the key {key} is the same as the key at offset {place} of this map")
    }

    /// Before which key the key at the place has to come, and by which order.
    fn key_order(&self) -> Text {
        let (alloc, item) = (self.items.alloc, self.item()?);
        let (from, to) = self.walk.last_key();
        let before = slice_of(self.walk.bytes, from, to);
        let rule = rule(&self.items, item, before)?;
        let (key, other) = (self.items.notation(item)?, self.items.notation(before)?);
        format!(in alloc; "the key {key} has to come before the key {other} at offset {from}{rule}")
    }

    /// Which bytes of the head at the place, or of the string after it, are missing.
    fn cut_head(&self) -> Text {
        let (rest, place, first) = (self.rest(), self.walk.at, self.first());
        let (what, verb, announced, there) = match read_head(rest) {
            HeadRead::Full(head, len) => {
                let there = rest.len().saturating_sub(len);
                (kind_of(first), "announces", content_len(head), there)
            }
            _ => ("head", "has", head_len(first), rest.len()),
        };
        let are = if there == 1 { "is" } else { "are" };
        let s = plural(announced);
        format!(in self.items.alloc;
            "the {what} at offset {place} {verb} {announced} byte{s}, of which {there} {are} there"
        )
    }

    /// Which byte of the text string at the place isn't UTF-8.
    fn not_utf8(&self) -> Text {
        let string = content_of(self.rest());
        let start = whole_head(self.rest()).map_or(0, |(_, len)| len.saturating_sub(string.len()));
        let at = valid_front(string).len();
        let offset = self.walk.at.saturating_add(start).saturating_add(at);
        let byte = string.get(at).copied().unwrap_or(0);
        format!(in self.items.alloc;
            "a text string is UTF-8, and the byte {byte:02x} at offset {offset} begins no character or is cut off"
        )
    }

    /// Why the bignum at the place isn't deterministic, and the deterministic encoding of its integer.
    fn loose_bignum(&self) -> Text {
        let alloc = self.items.alloc;
        let rule = "a bignum is for integers beyond 64 bits, and its bytes begin with no 00";
        let Some(encoding) = self.items.encoded_at(self.walk.bytes, self.walk.at)? else {
            return String::from_str(alloc, rule);
        };
        format!(in alloc;
            "{rule}: the shortest encoding is {}",
            Hex(&encoding, ENCODING)
        )
    }

    /// What tag 2 or 3 at the place has in place of a byte string.
    fn bad_bignum(&self) -> Text {
        let rest = self.rest();
        let (number, content) = match whole_head(rest) {
            Some((head, len)) => (argument_of(head), slice_of(rest, len, rest.len())),
            None => (2, rest),
        };
        let kind = content.first().map_or("nothing", |first| kind_of(*first));
        let article = match kind {
            "nothing" => "",
            "integer" | "array" => "an ",
            _ => "a ",
        };
        format!(in self.items.alloc;
            "tag {number} makes an integer of a byte string, and here it encloses {article}{kind}"
        )
    }

    /// The head at the place, and the shortest head in its place.
    fn long_head(&self) -> Text {
        let (alloc, rest) = (self.items.alloc, self.rest());
        let HeadRead::Full(head, len) = read_head(rest) else {
            return format!(in alloc; "the head isn't the shortest");
        };
        let (n, long) = (argument_of(head), Hex(slice_of(rest, 0, len), 9));
        let short = shortest_head(alloc, head.major_type(), n)?;
        format!(in alloc; "the head {long} holds {n}, and the shortest that does is {short}")
    }
}

/// Why a nesting is too deep. `open` names what counts as a level.
pub(crate) fn too_deep(items: &ItemReader, open: &str) -> Text {
    let most = items.limit.get();
    let how = if most < 1024 {
        "--depth N raises the limit, up to 1024"
    } else {
        "no limit is greater"
    };
    format!(in items.alloc; "the nesting limit is {most}, and this is inside as many {open}: {how}")
}

/// What the container of an open level lacks, or that none is open.
fn missing(alloc: Global, level: Level) -> Text {
    let (place, count, parts) = (level.place, level.argument, level.parts());
    let (s, pairs) = (plural(count), parts / 2);
    let endless = match level.kind {
        LevelKind::Sequence => return format!(in alloc; "nothing is open here"),
        LevelKind::Array => return format!(in alloc;
            "the array at offset {place} announces {count} element{s} and has {parts}"
        ),
        LevelKind::Map | LevelKind::GreatMap | LevelKind::EndlessMap if parts % 2 == 1 =>
            return format!(in alloc; "the map at offset {place} lacks the value of its last key"),
        LevelKind::Map | LevelKind::GreatMap => return format!(in alloc;
            "the map at offset {place} announces {count} pair{s} and has {pairs}"
        ),
        LevelKind::Tag => return format!(in alloc;
            "the tag {count} at offset {place} lacks its content"
        ),
        LevelKind::EndlessArray => "array",
        LevelKind::EndlessMap => "map",
        LevelKind::Chunks(_) => "string",
    };
    format!(in alloc; "the indefinite-length {endless} at offset {place} isn't ended by a break")
}

/// The ending of a noun after a count.
pub(crate) fn plural(count: u64) -> &'static str {
    if count == 1 { "" } else { "s" }
}

/// How many bytes a head with this initial byte has.
fn head_len(first: u8) -> u64 {
    match first % 32 {
        24 => 2,
        25 => 3,
        26 => 5,
        27 => 9,
        _ => 1,
    }
}

/// What an item with this initial byte is called.
fn kind_of(first: u8) -> &'static str {
    match Major::of_initial_byte(first) {
        Major::Unsigned | Major::Negative => "integer",
        Major::ByteString => "byte string",
        Major::TextString => "text string",
        Major::Array => "array",
        Major::Map => "map",
        Major::Tag => "tag",
        Major::Other => "simple value",
    }
}

fn argument_of(head: Head) -> u64 {
    match head.argument {
        Argument::Given(_, n) => n,
        Argument::Endless => 0,
    }
}

/// The shortest head of a major type with an argument, in hexadecimal.
pub(crate) fn shortest_head(alloc: Global, major: Major, n: u64) -> Text {
    let number = major.number();
    if number > 6 {
        return format!(in alloc; "{n:02x}");
    }
    let (bytes, len) = head_bytes(number, shortest(n), n);
    format!(in alloc; "{}", Hex(slice_of(&bytes, 0, len), 9))
}

/// By which order `key` comes before `other`, the key that precedes it. Empty where one is no valid item.
fn rule(items: &ItemReader, key: &[u8], other: &[u8]) -> Result<&'static str, AllocError> {
    let bytewise = is_first::<Bytewise>(items, key, other)?;
    let length_first = is_first::<LengthFirst>(items, key, other)?;
    let (Some((bytewise, differ)), Some((length_first, _))) = (bytewise, length_first) else {
        return Ok("");
    };
    // orders may differ where the encodings are equally long: each also sorts the maps within the keys
    Ok(match (bytewise, length_first) {
        (true, false) if differ =>
            ": in the bytewise order its encoding is the lesser; the length-first order has these two as they are, since it is the longer",
        (true, false) =>
            ": in the bytewise order its encoding is the lesser; the length-first order has these two as they are",
        (false, true) if differ =>
            ": in the length-first order its encoding is the shorter; the bytewise order has these two as they are",
        (false, true) =>
            ": in the length-first order its encoding is the lesser; the bytewise order has these two as they are",
        _ => ": its encoding is the lesser, in the bytewise order and in the length-first order",
    })
}

/// Whether `key` comes before `other` in the order `O`, and whether their encodings differ in length.
fn is_first<O: KeyOrder>(items: &ItemReader, key: &[u8], other: &[u8]) -> Found<(bool, bool)> {
    let ours = items.encoded::<O>(Kind::Wire, key)?;
    let theirs = items.encoded::<O>(Kind::Wire, other)?;
    let (Some(ours), Some(theirs)) = (ours, theirs) else {
        return Ok(None);
    };
    let is_less = matches!(O::compare(&ours, &theirs), Ordering::Less);
    Ok(Some((is_less, ours.len() != theirs.len())))
}
