//! The run of a session: its commands are taken one after another, and each reply goes to the sink.
#![tactic(auto)]

mod laws;
mod reading;
mod requests;
mod session;
mod taker;

pub use laws::{replicas_ask_well_formed_commands, sessions_ask_well_formed_commands};
pub use reading::{ReadSession, ReplicaScript, read_session};
pub use requests::{requests_of, session_requests};
pub use session::{SessionRun, run_session};
pub use taker::Taker;
