// The form of docs/TRACE.md, in which calls are recorded and driven from outside: traces with their arguments, answers with their payloads. Every
// function takes any bytes, and says what the definition in specs/ says of them. A buffer that is too short stays as it was, and nothing counts as
// written.
#![tactic(auto)]

pub mod answer;
pub mod args;
pub mod argument;
pub mod call;
pub mod op;
pub mod payload;
pub mod reader;
pub mod shape;
pub mod trace;

pub use answer::put_answer;
pub use args::Args;
pub use call::args_of;
pub use op::{AskOp, ChangeOp, Op, ShowOp, known_op};
pub use payload::{put_lock, put_marks, put_nothing, put_row, put_stats};
pub use trace::{Calls, calls_in, trace_in_form};
