//! The engines of elfmap for C: what `elfmap show`, `rewrite`, `map` and `link` make of bytes in memory, in a buffer of the caller.
//! `include/elfmap.h` declares each export and says what a caller must ensure.
//!
//! The output of an engine is kept until it is whole, and then copied into the buffer. An output that has no room there is not kept: a file
//! of `rewrite` is not made, and what `show`, `map` and `link` write is made once more, without a buffer, for its length. A call frees all
//! memory that it takes before it returns, and no state is kept between two calls. Begin with `exports`; `tables`, `verdicts` and
//! `places` have the calls without output.
#![tactic(auto)]

mod calls;
mod exports;
mod places;
mod said;
mod tables;
mod verdicts;
