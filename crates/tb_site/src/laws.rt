//! Laws of pages.
ghost use Rattle.tb_site.specs.Site.{FilesBehindRoutes, NoneOfNoSite};

/// A message that asks for a resource, or by another method for what a route has, is told no file. Nor is any message where there is
/// no page.
pub fn files_behind_routes()
    ensures routes { FilesBehindRoutes }
    ensures none { NoneOfNoSite }
{}
