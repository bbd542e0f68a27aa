//! Links of a frame to later ones: to the first response to its query or request, and to the first frame that joins its
//! part of a datagram or of a message. They are known once all frames were looked at.
#![tactic(auto)]

mod answers;
mod counts;
mod exchanges;
mod fields;
mod firsts;
mod laws;
mod links;
mod messages;
mod reading;
mod requests;

pub use fields::add_fields;
pub use laws::{
    kept_trees_get_the_same_links, links_are_read_from_trees, links_lead_back,
    other_frames_have_no_links,
};
pub use links::Links;
