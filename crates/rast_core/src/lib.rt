//! Configurations, their steps and their runs.
#![tactic(auto)]

mod answer;
mod config;
mod decide;
mod decision;
mod edit;
mod find;
mod handle;
mod items;
mod main_process;
mod messages;
mod origin;
mod outcome;
mod picks;
mod runs;
mod schedule;
mod spawn_path;

pub use answer::{Ahead, Next, Outcome, ReplayErr};
pub use config::Config;
pub use handle::Handle;
pub use items::Items;
pub use origin::Origin;
pub use picks::replay;
pub use runs::{FullRun, run};
