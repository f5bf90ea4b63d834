//! What the commands answer that search for a plan.
#![tactic(auto)]

pub mod freezing;
mod lines;
pub mod options;
pub mod planning;
pub mod resuming;
mod searching;
mod starting;
mod work;
mod workforce;

pub use freezing::freeze_text;
pub use options::Options;
pub use planning::plan_instance;
pub use resuming::resume_texts;
pub use workforce::Workforce;
