//! What the targets of messages lead to.
ghost use Rattle.std.specs.Prelude.{◌≡◌, ◌&&◌, ◌||◌, codes, IfOk};
ghost use Rattle.std.specs.Option.{option_copied};
ghost use Rattle.std.specs.Str.{bytes_eq};
ghost use Rattle.tb_site.specs.Site as page;

use crate::site::{Site, SiteFile};
use http::Method;
use std::alloc::{AllocError, Global};
use tb_http::{Message, RouteFault, Routes};

/// What the targets of messages lead to: the resources of the boards by their routes, and the files of a page.
#[derive(Drop)]
pub struct Paths {
    pub routes: Routes,
    pub site: Site,
}

// Whether a method reads.
fn reads(method: &Method) -> bool
    ensures { result ≡ page.reads method.now }
{
    method.as_str() == "GET" || method.as_str() == "HEAD"
}

impl Paths {
    pub fn new(alloc: Global, site: Site) -> Result<Paths, AllocError>
        ensures { IfOk result (λ paths. paths.site ≡ site) }
    {
        Ok(Paths {
            routes: Routes::new(alloc)?,
            site,
        })
    }

    // Whether a message reads a path that no route has.
    fn is_free(&self, message: &Message) -> bool
        ensures { result ≡ page.is_free message.now }
    {
        reads(&message.method)
            && matches!(
                self.routes
                    .resource(&message.method, message.target.as_str()),
                Err(RouteFault::NoRoute)
            )
    }

    /// The file that a message is told: one of its target, where it reads and no route has its path.
    #[tactic(auto, unfolding(crate::specs::Site::file_for))]
    pub fn file(&self, message: &Message) -> Option<&SiteFile>
        ensures { option_copied result ≡ page.file_for self.now.site message.now }
    {
        let file = self.site.file(message.target.as_str())?;
        if self.is_free(message) {
            Some(file)
        } else {
            None
        }
    }
}
