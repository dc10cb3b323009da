//! The names of what stands in the workspace: a file's is the MD5 of its bytes, a folder's that of its listing.
#![tactic(auto)]

mod digest;
mod fault;
mod file;
mod listing;
mod members;
mod name;
mod named;
mod print;
mod read;
mod walk;

pub use fault::{FileFault, HashFault, ListingFault};
pub use file::name_file;
pub use listing::{Listing, Member};
pub use name::{Listed, list_folder, listing_at, name_at, name_listing};
pub use named::Named;
pub use print::print_listing;
pub use read::read_listing;
