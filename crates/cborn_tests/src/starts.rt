//! A visitor of a caller's own is handed the heads of a text, each with its place. By its contract the
//! call could always answer that memory was refused.

use cborn_edn::visit_text;
use cborn_lex::Profile;
use cborn_model::{Limit, Size, StringKind, Visitor, Width};
use std::alloc::AllocError;
use std::test::Fail;

/// A map, an array, an integer outside 64 bits, chunks, a tag, and strings with `<<..>>`.
const TEXT: &str =
    "{\"a\": [1, 18446744073709551616], 2: (_ 'b', <<[3]>> 'c')}, 4(simple(5)), <<6>> 'd'";

/// The bignum of `18446744073709551616` is two nodes at one place. What is between `<<` and `>>` is
/// the content of a string.
const STARTS: [u64; 13] = [0, 1, 6, 7, 10, 10, 33, 36, 39, 44, 59, 61, 73];

/// How many containers end: the array, the bignum, the chunks, the map and the tag.
const ENDS: u64 = 5;

/// Keeps where nodes and chunks begin, and counts the ends of containers.
#[derive(Drop)]
struct Starts {
    places: Vec<u64>,
    ends: u64,
}

impl Starts {
    fn begin(&mut self, place: u64) -> Result<(), AllocError> {
        self.places.push(place)?;
        Ok(())
    }
}

impl Visitor for Starts {
    ghost holds = { λ v f c. Unit {0} };

    ghost takes_memory = { Unit {0} };

    fn integer(
        &mut self,
        place: u64,
        _negative: bool,
        _width: Width,
        _n: u64,
    ) -> Result<(), AllocError> {
        self.begin(place)
    }

    fn simple(&mut self, place: u64, _n: u8) -> Result<(), AllocError> {
        self.begin(place)
    }

    fn open_array(
        &mut self,
        place: u64,
        _size: Size,
        _count: Option<u64>,
    ) -> Result<(), AllocError> {
        self.begin(place)
    }

    fn open_map(&mut self, place: u64, _size: Size, _count: Option<u64>) -> Result<(), AllocError> {
        self.begin(place)
    }

    fn open_tag(&mut self, place: u64, _width: Width, _n: u64) -> Result<(), AllocError> {
        self.begin(place)
    }

    fn open_chunks(&mut self, place: u64, _kind: StringKind) -> Result<(), AllocError> {
        self.begin(place)
    }

    fn close(&mut self) -> Result<(), AllocError> {
        self.ends = self.ends.saturating_add(1);
        Ok(())
    }

    fn open_string(
        &mut self,
        place: u64,
        _kind: StringKind,
        _width: Width,
        _len: u64,
    ) -> Result<(), AllocError> {
        self.begin(place)
    }

    fn part(&mut self, _bytes: &[u8]) -> Result<(), AllocError> {
        Ok(())
    }

    fn close_string(&mut self) -> Result<(), AllocError> {
        Ok(())
    }
}

/// Catches a reader that hands over what is embedded, or hands over heads at other places.
#[test]
fn each_head_is_handed_over(rt: HostRuntime) -> Result<(), Fail> {
    for profile in [Profile::One, Profile::Two] {
        let mut starts = Starts {
            places: Vec::new(rt.alloc()),
            ends: 0,
        };
        visit_text(rt.alloc(), Limit::USUAL, profile, TEXT, &mut starts)?;
        assert_eq!(rt; starts.places.as_slice(), STARTS.as_slice());
        assert_eq!(rt; starts.ends, ENDS);
    }
    Ok(())
}
