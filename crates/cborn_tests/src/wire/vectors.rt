//! Bytes that are well-formed, and bytes that aren't, with the fault that they have.
use cborn_model::Limit;
use cborn_wire::WireReason::{
    BadChunk, BadSimple, EndlessNotAllowed, FloatLeftOut, ReservedInfo, Truncated, UnexpectedBreak,
};
use cborn_wire::{WireFault, WireReason, read_all, spell_all};
use hex::decode;
use std::alloc::Global;
use std::test::Fail;

/// Integers, bignums and simple values (RFC 8949, Appendix A).
const NUMBERS: &str = "\
00 01 0a 17 1818 1819 1864 1903e8 1a000f4240 1b000000e8d4a51000 1bffffffffffffffff 20 29 3863 3903e7
3bffffffffffffffff c249010000000000000000 c349010000000000000000 f4 f5 f6 f7 f0 f8ff f820";

/// Strings, and tags of them (RFC 8949, Appendix A).
const STRINGS: &str = "\
40 4401020304 60 6161 6449455446 62225c 62c3bc 63e6b0b4 64f0908591 5f42010243030405ff
7f657374726561646d696e67ff 5fff 7fff c074323031332d30332d32315432303a30343a30305a c11a514b67b0
d74401020304 d818456449455446 d82076687474703a2f2f7777772e6578616d706c652e636f6d";

/// Arrays and maps (RFC 8949, Appendix A).
const COLLECTIONS: &str = "\
80 83010203 8301820203820405 98190102030405060708090a0b0c0d0e0f101112131415161718181819 a0
a201020304 a26161016162820203 826161a161626163 a56161614161626142616361436164614461656145 9fff
9f018202039f0405ffff 9f01820203820405ff 83018202039f0405ff 83019f0203ff820405
9f0102030405060708090a0b0c0d0e0f101112131415161718181819ff bf61610161629f0203ffff 826161bf61626163ff
bf6346756ef563416d7421ff";

/// Bytes that aren't deterministic: long heads, loose bignums, indefinite lengths, keys in another
/// order. Some are sequences.
pub const LOOSE: &str = "\
1801 98021801580161 1900ff 3817 5900026162 7803616263 c240 c340 c243000001 c248ffffffffffffffff c201
62c328 7f61c361bcff a8f4008120008118640062616100617a0020001864000a00 a20100c2410100 a20200180100
a1a20200010000 bf617a010a5f4101ffff 011864617a bf0102ff d80100 d8184101 d9d9f780 5f580161ff
5f4261624163ff00 190001 9800 780161 b8010102";

/// Bytes that aren't well-formed, each with the place and the reason of its fault (RFC 8949, Appendix
/// F): each reason, and declared lengths that no memory holds.
pub const REFUSED: [(&[u8], u64, WireReason); 23] = [
    (b"\x5f\x1c", 1, ReservedInfo),
    (b"\xdf", 0, EndlessNotAllowed),
    (b"\xc1\xfb\x41\xd4\x52\xd9\xe8\x20\x00\x00", 1, FloatLeftOut),
    (b"\xf8\x18", 0, BadSimple),
    (b"\x7f\x61\x61\x41\x61\xff", 3, BadChunk),
    (b"\xbf\x00\x00\x00\xff", 4, UnexpectedBreak),
    (b"\x82\x00", 2, Truncated),
    (b"\x5b\xff\xff\xff\xff\xff\xff\xff\xff", 9, Truncated),
    (b"\x7b\xff\xff\xff\xff\xff\xff\xff\xff\x01", 10, Truncated),
    (b"\x9b\xff\xff\xff\xff\xff\xff\xff\xff", 9, Truncated),
    (
        b"\xbb\x80\x00\x00\x00\x00\x00\x00\x00\x00\x00",
        11,
        Truncated,
    ),
    (b"\xbf\x01\xff", 2, UnexpectedBreak),
    (b"\xff", 0, UnexpectedBreak),
    (b"\x9f\x00\xff\xff", 3, UnexpectedBreak),
    (b"\x5f\x61\x61\xff", 1, BadChunk),
    (b"\x5f\x5f\xff\xff", 1, BadChunk),
    (b"\x1c", 0, ReservedInfo),
    (b"\x00\x1c", 1, ReservedInfo),
    (b"\x1f", 0, EndlessNotAllowed),
    (b"\xf9\x3c\x00", 0, FloatLeftOut),
    (b"\xf8", 1, Truncated),
    (b"\x01\x18", 2, Truncated),
    (b"\x9f", 1, Truncated),
];

/// The bytes of each word of a text, which has two hexadecimal digits a byte.
pub fn of_hex(alloc: Global, words: &str) -> Result<Vec<Vec<u8>>, Fail> {
    let mut inputs = Vec::new(alloc);
    for word in words.split_ascii_whitespace() {
        inputs.push(decode(alloc, word)?)?;
    }
    Ok(inputs)
}

/// Bytes that are well-formed.
pub const WELLFORMED: [&str; 4] = [NUMBERS, STRINGS, COLLECTIONS, LOOSE];

/// Catches a reader and a writer that agree with each other and not with the standard.
#[test]
fn reads_and_spells(rt: HostRuntime) -> Result<(), Fail> {
    for words in WELLFORMED {
        for input in &of_hex(rt.alloc(), words)? {
            let items = read_all(rt.alloc(), Limit::USUAL, input)?;
            let bytes = spell_all(rt.alloc(), &items)?;
            assert_eq!(rt; bytes.as_slice(), input.as_slice());
        }
    }
    Ok(())
}

/// Catches a reader that asks for as much memory as a head declares, and a fault that is never
/// reported.
#[test]
fn refuses(rt: HostRuntime) {
    for (input, place, reason) in REFUSED {
        let fault = WireFault::Refused { place, reason };
        let read = read_all(rt.alloc(), Limit::USUAL, input);
        assert_eq!(rt; read.err(), Some(fault), "{input:?}");
    }
}
