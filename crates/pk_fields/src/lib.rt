//! The names that a filter or a column may have, protocols and their fields: the kind of each one's values, its
//! protocol, and the bits that it is read from. The table is written from tools/fields.txt; docs/FIELDS.md shows it.
//! Beside it, which application a port's payload is read as: the usual ones, written from tools/protocols.txt, and rules that take
//! their place.
#![tactic(auto)]

mod applications;
mod apps;
mod field_id;
mod field_set;
pub mod ids;
mod registry;
mod row;
mod rules;
mod table;
mod value_kind;

pub use applications::{tcp_app, udp_app};
pub use apps::{App, app_fits, app_name, app_named};
pub use field_id::{FieldId, field_of};
pub use field_set::FieldSet;
pub use registry::{bits, by_name, kind, name, proto, size};
pub use rules::{DecodeAs, PortRule, PortRules};
pub use value_kind::{BitPlace, ValueKind};
