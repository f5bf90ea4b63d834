//! What the commands answer that check a certificate and do not search.
#![tactic(auto)]

pub mod checking;
pub mod checking_behind;
pub mod laws;
pub mod lines;

pub use checking::{Checked, accepted_texts, convert_texts, lawful_plan_in, too_long_to_store};
pub use checking_behind::{leaves_some, raised, verify_from};
pub use lines::number_or_none;
