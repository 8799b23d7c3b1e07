//! The site: which file stands under which path.

ghost use Rattle.std.specs.Prelude.{◌≡◌, ℕ, List, true, false, is_some, Some, None, MatchOption, OnOk, OnErr, IfErr, bytes_eq, if◌then◌else◌};
ghost use Rattle.std.specs.List.{list_all};
ghost use Rattle.http_message.specs.Routes.{is_path_byte, is_site_path, have_site_paths};
ghost use Rattle.http_message.specs.declared.site.SiteFault.TheVariants.{BadPath, Taken, NoMemory};

use matchit::Router;
use std::alloc::Global;
use thiserror::Error;

/// Why a path was not put into a site.
#[derive(Clone, Copy, Debug, Error)]
pub enum SiteFault {
    /// The path is not a `/` with letters, digits and `-._~/` behind it.
    #[error("the path is not a slash with letters, digits and `-._~/` behind it")]
    BadPath,
    /// The site has the path.
    #[error("the site has the path")]
    Taken,
    /// There is no memory.
    #[error("no memory")]
    NoMemory,
}

fn is_path_byte(b: u8) -> bool
    ensures { result ≡ is_path_byte b }
{
    b.is_ascii_alphanumeric() || b == b'-' || b == b'.' || b == b'_' || b == b'~' || b == b'/'
}

fn has_path_bytes(path: &[u8]) -> bool
    ensures { result ≡ list_all is_path_byte path.now }
{
    for b in path {
        if !is_path_byte(*b) {
            return false;
        }
    }
    true
}

#[tactic(auto, unfolding(crate::specs::Routes::is_site_path))]
fn is_site_path(path: &[u8]) -> bool
    ensures { result ≡ is_site_path path.now }
{
    if let [b'/', ..] = path {
        return has_path_bytes(path);
    }
    false
}

/// Which file stands under which path.
#[derive(Drop)]
pub struct Site {
    alloc: Global,
    routes: Router<Vec<u8>>,
    ghost paths: { have_site_paths routes ≡ true },
}

impl Site {
    ghost use Rattle.http_message.specs.Sites.{route_of};

    /// A site with no path. It takes no memory.
    pub fn new(alloc: Global) -> Site
        ensures { (q : List ℕ) → route_of result q ≡ None }
    {
        Site {
            alloc,
            routes: Router::new(alloc),
        }
    }

    /// Puts a path with the name of its file into the site. Where it is refused, nothing changes.
    ///
    /// # Errors
    ///
    /// In this order: `BadPath` where the path is not a `/` with zero or more letters, digits and `-._~/` behind
    /// it, `Taken` where the site has the path, and `NoMemory`.
    pub fn add(&mut self, path: &str, file: &[u8]) -> Result<(), SiteFault>
        ensures good { OnOk result (is_site_path path.now ≡ true) }
        ensures free { OnOk result (route_of self.old path.now ≡ None) }
        ensures put { OnOk result ((q : List ℕ) → route_of self.new q
            ≡ (if bytes_eq path.now q then Some file.now else route_of self.old q)) }
        ensures bad { IfErr result (λ e. e ≡ BadPath → is_site_path path.now ≡ false) }
        ensures refused { is_site_path path.now ≡ false → result ≡ Err BadPath }
        ensures taken { IfErr result (λ e. e ≡ Taken → is_some (route_of self.old path.now) ≡ true) }
        ensures short { IfErr result (λ e. e ≡ NoMemory → route_of self.old path.now ≡ None) }
        ensures kept { OnErr result ((q : List ℕ) → route_of self.new q ≡ route_of self.old q) }
    {
        if !is_site_path(path.as_bytes()) {
            return Err(SiteFault::BadPath);
        }
        if self.route(path.as_bytes()).is_some() {
            return Err(SiteFault::Taken);
        }
        let Ok(name) = Vec::from_slice(self.alloc, file) else {
            return Err(SiteFault::NoMemory);
        };
        // A path that is good and free is refused for lack of memory alone.
        let Ok(()) = self.routes.insert(path, name) else {
            return Err(SiteFault::NoMemory);
        };
        Ok(())
    }

    /// The name of the file under a path, which is matched as a whole and byte by byte. A path may be any bytes:
    /// without such a path there is none.
    pub fn route(&self, path: &[u8]) -> Option<&[u8]>
        ensures { MatchOption result (route_of self.now path.now ≡ None) (λ file. route_of self.now path.now ≡ Some file.now) }
    {
        let Ok(text) = str::from_utf8(path) else {
            return None;
        };
        match self.routes.at(text) {
            Ok(found) => Some(found.value.as_slice()),
            Err(_) => None,
        }
    }
}
