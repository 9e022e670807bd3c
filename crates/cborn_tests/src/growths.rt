//! The answers of the calls that give or accept nodes. The program's tables test what the program calls.
//!
//! With enough memory each test has one right answer, so a call that always answers out of memory
//! fails. `make library-growths` refuses each growth in turn. A test may then end with out of memory,
//! and with nothing else.

mod large;
mod nodes;
mod worked;
