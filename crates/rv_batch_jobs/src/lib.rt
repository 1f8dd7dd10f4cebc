//! The job of the program that answers calls, an object of JSON a line, in one process.
//!
//! Main function: `answer_calls`. A call has sources or an executable, an input and a limit, and says what it wants: what the
//! run has written, its end, how many instructions it executed, the map, all that is wrong with the sources. Its answer stands
//! on the line of the same number, and has the status and the line of a fault that `rv run` would have.
//!
//! Calls share nothing: what one takes is given back before the next is answered, so that one that is refused, wants more memory
//! than there is or reaches its limit leaves the others as they are. The status of a run is said by a clause of `rv_guests`;
//! texts are tested. It does not know the words of a command line.
//!
//! ```text
//! // {"id": 1, "sources": ["_start: li a0, 7; li a7, 93; ecall"]}
//! // {"console":"","end":{"name":"Exited","status":7},"id":1,"status":7}
//! ```
#![tactic(auto)]

mod answer;
mod answering;
mod answers;
mod call;
mod given;
mod line;
mod members;
mod wanted;

pub use answering::answer_calls;
