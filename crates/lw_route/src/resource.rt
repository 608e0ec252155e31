ghost use Rattle.std.specs.Prelude.{◌≡◌, ◌↔◌, ℕ, List, Some, IfSome, IsSomeAnd};
ghost use Rattle.lw_route.specs.Methods.{allowed as methods_at};
ghost use Rattle.lw_route.specs.Targets.{place_of, IsPathOf, IsBelow, IsWithin};
ghost use Rattle.lw_route.specs.Targets.Place.{At, Below, Within};

use crate::{Allowed, Commands};

/// What a path of the table is of.
#[derive(Clone, Copy)]
pub(crate) enum Resource {
    Page,
    Health,
    Node,
    Metrics,
    Registrations,
    Registration,
    Observations,
    ById,
    ByAddress,
    ByToken,
    Changes,
    Notifications,
}

impl Resource {
    ghost use Rattle.lw_route.specs.declared.resource.Resource.{Resource as Resources};

    /// The methods that the resource has.
    pub(crate) fn allowed(self, commands: Commands) -> Allowed
        ensures { result ≡ methods_at commands self }
    {
        match (commands, self) {
            (Commands::On, Resource::Observations) => Allowed::GetAndPost,
            (Commands::On, Resource::ByToken) => Allowed::GetAndDelete,
            _ => Allowed::Get,
        }
    }

    /// The resource of a path, and the segment that names one of its kind, or an empty text.
    pub(crate) fn of_path(path: &str) -> Option<(Resource, &str)>
        ensures found { IfSome result (λ x. IsPathOf (place_of x.0) x.1.now path.now) }
        ensures only { (resource : Resources) (segment : List ℕ) → IsPathOf (place_of resource) segment path.now
            → IsSomeAnd result (λ x. (x.0 ≡ resource) × (x.1.now ≡ segment)) }
    {
        match Resource::at(path) {
            Some(resource) => Some((resource, "")),
            None => Resource::below(path),
        }
    }

    fn at(path: &str) -> Option<Resource>
        ensures { (resource : Resources) → (result ≡ Some resource) ↔ (place_of resource ≡ At path.now) }
    {
        match path {
            "/" => Some(Resource::Page),
            "/v1/health" => Some(Resource::Health),
            "/v1/node" => Some(Resource::Node),
            "/metrics" => Some(Resource::Metrics),
            "/v1/registrations" => Some(Resource::Registrations),
            "/v1/changes" => Some(Resource::Changes),
            "/v1/notifications" => Some(Resource::Notifications),
            _ => None,
        }
    }

    /// The resource of a path that has a segment of its own.
    fn below(path: &str) -> Option<(Resource, &str)>
        ensures found { IfSome result (λ x. IsPathOf (place_of x.0) x.1.now path.now) }
        ensures below { (resource : Resources) (upper segment : List ℕ) → place_of resource ≡ Below upper
            → IsBelow upper segment path.now → IsSomeAnd result (λ x. (x.0 ≡ resource) × (x.1.now ≡ segment)) }
        ensures within { (resource : Resources) (upper segment lower : List ℕ) → place_of resource ≡ Within upper lower
            → IsWithin upper segment lower path.now → IsSomeAnd result (λ x. (x.0 ≡ resource) × (x.1.now ≡ segment)) }
    {
        let (upper, segment) = last_segment(path)?;
        match Resource::named_below(upper) {
            Some(resource) => Some((resource, segment)),
            None => Resource::within(upper, segment),
        }
    }

    /// The resource that stands under the last name, below what the last segment of the path names.
    fn within<'a>(path: &'a str, lower: &str) -> Option<(Resource, &'a str)>
        ensures found { IfSome result (λ x. (upper : List ℕ) × (place_of x.0 ≡ Within upper lower.now)
            × IsBelow upper x.1.now path.now) }
        ensures only { (resource : Resources) (upper segment : List ℕ) → place_of resource ≡ Within upper lower.now
            → IsBelow upper segment path.now → IsSomeAnd result (λ x. (x.0 ≡ resource) × (x.1.now ≡ segment)) }
    {
        let (upper, segment) = last_segment(path)?;
        Some((Resource::named_within(upper, lower)?, segment))
    }

    fn named_below(upper: &str) -> Option<Resource>
        ensures { (resource : Resources) → (result ≡ Some resource) ↔ (place_of resource ≡ Below upper.now) }
    {
        match upper {
            "/v1/registrations" => Some(Resource::Registration),
            "/v1/ids" => Some(Resource::ById),
            "/v1/addresses" => Some(Resource::ByAddress),
            "/v1/tokens" => Some(Resource::ByToken),
            _ => None,
        }
    }

    fn named_within(upper: &str, lower: &str) -> Option<Resource>
        ensures { (resource : Resources) → (result ≡ Some resource) ↔ (place_of resource ≡ Within upper.now lower.now) }
    {
        match (upper, lower) {
            ("/v1/registrations", "observations") => Some(Resource::Observations),
            _ => None,
        }
    }
}

/// What stands before the last slash, and the segment behind it, if that is not empty.
fn last_segment(path: &str) -> Option<(&str, &str)>
    ensures found { IfSome result (λ x. IsBelow x.0.now x.1.now path.now) }
    ensures only { (upper segment : List ℕ) → IsBelow upper segment path.now
        → IsSomeAnd result (λ x. (x.0.now ≡ upper) × (x.1.now ≡ segment)) }
{
    let (upper, segment) = path.rsplit_once('/')?;
    if segment.is_empty() {
        return None;
    }
    Some((upper, segment))
}
