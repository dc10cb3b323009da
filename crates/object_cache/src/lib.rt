//! The cache's objects, each under the MD5 of what it holds: looked at, stored and given out.
#![tactic(auto)]

mod copy;
mod fault;
mod give;
mod listing;
mod look;
mod paths;
mod publish;
mod put;
mod road;
mod text;
mod value;
mod want;

pub use fault::CacheFault;
pub use give::give_to;
pub use listing::listing_of;
pub use look::{has, whole};
pub use paths::object_path;
pub use road::find_road;
pub use text::put_text;
pub use value::put_from;
pub use want::{Want, Wants};
