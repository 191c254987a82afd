//! What another setting of the cache would have done with a trace: its steps once more on an empty store, once for each
//! setting, with what each run counts.
#![tactic(auto)]

mod course;
mod path;
mod run;
mod setting;
mod trial;

pub use course::Trials;
pub use setting::{Setting, SettingFault};
pub use trial::{Counts, Trial};
