// Report, refusal, answer, a configuration and a writer's state as bytes, laid out as docs/LAYOUT.md says.
#![tactic(auto)]

mod mode; // the numbers of the modes
mod config; // a configuration
mod state; // a writer's state
mod answers; // report, refusal and answer

pub use crate::answers::{put_answer, put_refusal, put_refused, put_report};
pub use crate::config::create_from;
pub use crate::mode::{is_mode, mode_for};
pub use crate::state::{put_state, read_state};

// How many bytes each takes.
pub const REPORT_BYTES: usize = 40;

pub const REFUSAL_BYTES: usize = 32;

pub const ANSWER_BYTES: usize = 72;

pub const CONFIG_BYTES: usize = 72;

pub const STATE_BYTES: usize = 200;
