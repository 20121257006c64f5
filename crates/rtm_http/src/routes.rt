ghost use Rattle.std.specs.Prelude.{◌≡◌, OnOk, IfSome, Some, Ok};
ghost use Rattle.matchit.specs.Route.{parse_route};
ghost use Rattle.matchit.specs.Router.{InsertsRead};
ghost use Rattle.rtm_http.specs.Route.{Target, Leads, IsAnswer};
ghost use Rattle.rtm_http.specs.Table.{table, endpoint_of};

use crate::call::Routed;
use crate::endpoint::Endpoint;
use matchit::Router;
use sim_base::OutOfMemory;
use std::alloc::Global;

/// The table of routes.
#[derive(Drop)]
pub struct Routes {
    router: Router<Endpoint>,
    ghost rows: { router ≡ table },
}

/// Adds a route.
fn add(router: &mut Router<Endpoint>, route: &str, endpoint: Endpoint) -> Result<(), OutOfMemory>
    ensures { OnOk result (InsertsRead (parse_route route.now) endpoint router.old router.new (Ok tt)) }
{
    router.insert(route, endpoint).map_err(|_error| OutOfMemory)
}

impl Routes {
    /// The table, opened once for all requests.
    pub fn open(alloc: Global) -> Result<Routes, OutOfMemory> {
        let mut router = Router::new(alloc);
        add(&mut router, "/now", Endpoint::Now)?;
        add(&mut router, "/parts", Endpoint::Parts)?;
        add(&mut router, "/part/{name}", Endpoint::Part)?;
        add(&mut router, "/part/{name}/field/{field}", Endpoint::Field)?;
        add(&mut router, "/buffers", Endpoint::Buffers)?;
        add(&mut router, "/progress", Endpoint::Progress)?;
        add(&mut router, "/stuck", Endpoint::Stuck)?;
        add(&mut router, "/wait/{time}", Endpoint::Wait)?;
        add(&mut router, "/pause", Endpoint::Pause)?;
        add(&mut router, "/continue", Endpoint::Continue)?;
        add(&mut router, "/tick/{name}", Endpoint::Tick)?;
        add(&mut router, "/leave", Endpoint::Leave)?;
        Ok(Routes { router })
    }

    /// What the path leads to, or None where it leads nowhere.
    fn endpoint_at(&self, path: &[u8]) -> Option<Endpoint>
        ensures leads { IfSome result (λ endpoint. (target : Target) × Leads path.now target × (endpoint_of target ≡ endpoint)) }
        ensures found { (target : Target) → Leads path.now target → result ≡ Some (endpoint_of target) }
    {
        let Ok(text) = str::from_utf8(path) else {
            return None;
        };
        match self.router.at(text) {
            Ok(found) => {
                let endpoint = found.value;
                Some(*endpoint)
            }
            Err(_) => None,
        }
    }

    /// Where this method and this path lead: no such path is told first, then another method, then a bad number. It takes no
    /// memory.
    pub fn route(&self, method: &[u8], path: &[u8]) -> Routed
        ensures found { (target : Target) → Leads path.now target → IsAnswer method.now target result }
        ensures no_route { ((target : Target) → ¬ (Leads path.now target)) → result ≡ Routed.NoRoute }
    {
        match self.endpoint_at(path) {
            Some(endpoint) => endpoint.answer(method, path),
            None => Routed::NoRoute,
        }
    }
}
