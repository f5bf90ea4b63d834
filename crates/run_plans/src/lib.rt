//! What the commands answer that look at an instance and a plan, and neither search nor check a certificate: which instance the texts say,
//! judging, drafting, sheets.
#![tactic(auto)]

pub mod drafting;
pub mod grounded;
pub mod instances;
pub mod judging;
pub mod lines;
pub mod reading;
pub mod replaying;
pub mod sheeting;

pub use drafting::draft_instance;
pub use grounded::Grounded;
pub use instances::instance_of;
pub use judging::{judge_text, verdict_on};
pub use lines::{lawful_line, unlawful_line};
pub use reading::{lawful, read_plan_of};
pub use replaying::replay_text;
pub use sheeting::sheet_text;
