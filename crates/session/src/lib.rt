// A session: key and value calls that replace references, and redactions of what is shown.
#![tactic(auto)]

pub mod breach;
mod calls;
mod checks;
pub mod error;
mod note;
pub mod redactions;
mod refuse;
pub mod session;
