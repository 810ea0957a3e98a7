//! Judgements, the premises of each node, its children, and accepted programs.
#![tactic(auto)]

mod asking;
mod below;
mod calls;
mod channels;
mod child_types;
mod count;
mod deal;
mod draft;
mod formulas;
mod head;
mod judged;
mod judgement;
mod late;
mod making;
mod others;
mod planned;
mod premise;
mod root;
mod touch;
mod touching;
mod trail;

pub use asking::premises;
pub use below::children;
pub use judgement::{Judgement, Plan};
pub use planned::plan;
pub use premise::{Evidence, Premise};
pub use root::{RuleErr, start};
