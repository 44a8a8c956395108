//! The page of a server: files that a message may be told in place of a resource of the boards.
//! It owns which file a message is told, that no file stands before a route, and what page a folder makes, with its limits.
//! It stands on `tb_http` for messages, routes and the heads of answers.
#![tactic(auto)]

mod fault;
mod folder;
pub mod laws;
mod page;
mod paths;
mod site;

pub use fault::PageFault;
pub use folder::read_page;
pub use page::{FoundFile, MOST_BYTES, MOST_FILES, is_folder_name, make_page, media_of};
pub use paths::Paths;
pub use site::{Site, SiteFile};
