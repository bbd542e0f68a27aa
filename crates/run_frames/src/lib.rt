//! What a run is asked for, and what it makes of a frame: the fields that it needs, the frame's tree, whether the filter lets it
//! through, its line or its packet, and what is noted of it for what stands behind.
#![tactic(auto)]

mod compiled;
mod frames;
mod generated;
mod judge;
mod later;
mod notes;
mod owned;
mod packet;
mod plan;
mod rules;
mod run_ending;
mod source;
mod tables;
mod taken;
mod totals;

pub use compiled::Compiled;
pub use dissect::give_up_dissector;
pub use frames::{
    LineMaker, RunFault, new_dissector, new_line_maker, new_value_dissector, write_frame,
};
pub use generated::Generated;
pub use judge::Judge;
pub use later::Later;
pub use notes::Notes;
pub use owned::{give_up_lines, give_up_tree};
pub use packet::write_end;
pub use plan::{FieldList, Plan};
pub use rules::{PlanRules, copy_rules};
pub use run_ending::RunEnding;
pub use source::PlanSource;
pub use tables::{Tables, asks_table};
pub use totals::Totals;
