ghost use Rattle.std.specs.Prelude.{◌≡◌};
ghost use Rattle.rest_routes.specs.Endpoints.{verb_of, has_body, is_offered, verb_offered};

use size_values::ObjectKind;

/// What stands at a path of the REST API: the root, the server at `/1.0`, the list of a kind of objects, one object,
/// the usage of a project, the state of an instance, the wait for an operation, the events, and a list that is always
/// empty here.
#[derive(Clone, Copy)]
pub enum Endpoint {
    Root,
    Server,
    List(ObjectKind),
    One(ObjectKind),
    Usage,
    State,
    Wait,
    Events,
    Empty,
}

/// The methods that some path offers. HEAD is read as GET.
#[derive(Clone, Copy)]
pub enum Verb {
    Get,
    Post,
    Put,
    Patch,
    Delete,
}

/// The methods that a path offers.
#[derive(Clone, Copy)]
pub struct Methods {
    pub get: bool,
    pub post: bool,
    pub put: bool,
    pub patch: bool,
    pub delete: bool,
}

/// What stands at a path, and the methods that it offers.
#[derive(Clone, Copy)]
pub struct Line {
    pub endpoint: Endpoint,
    pub offers: Methods,
}

const ALL: Methods = Methods {
    get: true,
    post: true,
    put: true,
    patch: true,
    delete: true,
};

const GET: Methods = Methods {
    get: true,
    post: false,
    put: false,
    patch: false,
    delete: false,
};

const GET_POST: Methods = Methods {
    get: true,
    post: true,
    put: false,
    patch: false,
    delete: false,
};

const GET_PUT: Methods = Methods {
    get: true,
    post: false,
    put: true,
    patch: false,
    delete: false,
};

const GET_DELETE: Methods = Methods {
    get: true,
    post: false,
    put: false,
    patch: false,
    delete: true,
};

/// All but POST.
const NO_RENAME: Methods = Methods {
    get: true,
    post: false,
    put: true,
    patch: true,
    delete: true,
};

/// The table of routes: the paths of the REST API, what stands there, and the methods that they offer. A name in braces
/// takes one part between slashes.
pub(crate) const ROUTES: &[(&str, Endpoint, Methods)] = &[
    ("/", Endpoint::Root, GET),
    ("/1.0", Endpoint::Server, GET),
    (
        "/1.0/projects",
        Endpoint::List(ObjectKind::Project),
        GET_POST,
    ),
    (
        "/1.0/profiles",
        Endpoint::List(ObjectKind::Profile),
        GET_POST,
    ),
    (
        "/1.0/networks",
        Endpoint::List(ObjectKind::Network),
        GET_POST,
    ),
    (
        "/1.0/storage-pools",
        Endpoint::List(ObjectKind::Pool),
        GET_POST,
    ),
    (
        "/1.0/instances",
        Endpoint::List(ObjectKind::Instance),
        GET_POST,
    ),
    (
        "/1.0/projects/{name}",
        Endpoint::One(ObjectKind::Project),
        ALL,
    ),
    (
        "/1.0/profiles/{name}",
        Endpoint::One(ObjectKind::Profile),
        ALL,
    ),
    (
        "/1.0/networks/{name}",
        Endpoint::One(ObjectKind::Network),
        ALL,
    ),
    (
        "/1.0/instances/{name}",
        Endpoint::One(ObjectKind::Instance),
        ALL,
    ),
    (
        "/1.0/storage-pools/{name}",
        Endpoint::One(ObjectKind::Pool),
        NO_RENAME,
    ),
    ("/1.0/projects/{name}/state", Endpoint::Usage, GET),
    (
        "/1.0/storage-pools/{pool}/volumes",
        Endpoint::List(ObjectKind::Volume),
        GET_POST,
    ),
    (
        "/1.0/storage-pools/{pool}/volumes/custom",
        Endpoint::List(ObjectKind::Volume),
        GET_POST,
    ),
    (
        "/1.0/storage-pools/{pool}/volumes/custom/{name}",
        Endpoint::One(ObjectKind::Volume),
        ALL,
    ),
    ("/1.0/instances/{name}/state", Endpoint::State, GET_PUT),
    (
        "/1.0/instances/{name}/snapshots",
        Endpoint::List(ObjectKind::Snapshot),
        GET_POST,
    ),
    (
        "/1.0/instances/{name}/snapshots/{snapshot}",
        Endpoint::One(ObjectKind::Snapshot),
        GET_DELETE,
    ),
    (
        "/1.0/operations",
        Endpoint::List(ObjectKind::Operation),
        GET,
    ),
    (
        "/1.0/operations/{id}",
        Endpoint::One(ObjectKind::Operation),
        GET_DELETE,
    ),
    ("/1.0/operations/{id}/wait", Endpoint::Wait, GET),
    ("/1.0/events", Endpoint::Events, GET),
];

/// The paths of lists of what Incus has and this server has not. The client's dialect shows them empty, since the command
/// `incus` asks for them.
pub(crate) const EMPTY_LISTS: &[(&str, Endpoint, Methods)] = &[
    ("/1.0/certificates", Endpoint::Empty, GET),
    ("/1.0/images", Endpoint::Empty, GET),
    ("/1.0/images/aliases", Endpoint::Empty, GET),
    ("/1.0/network-acls", Endpoint::Empty, GET),
    ("/1.0/network-zones", Endpoint::Empty, GET),
    ("/1.0/networks/{name}/forwards", Endpoint::Empty, GET),
    ("/1.0/storage-pools/{pool}/buckets", Endpoint::Empty, GET),
    ("/1.0/warnings", Endpoint::Empty, GET),
];

/// The method of this name, if some path offers it. HEAD asks for what GET does (RFC 9110, section 9.3.2).
#[tactic(auto, unfolding(crate::specs::Endpoints::verb_of))]
fn verb_of(method: &str) -> Option<Verb>
    ensures { result ≡ verb_of method.now }
{
    if method == "GET" || method == "HEAD" {
        return Some(Verb::Get);
    }
    if method == "POST" {
        return Some(Verb::Post);
    }
    if method == "PUT" {
        return Some(Verb::Put);
    }
    if method == "PATCH" {
        return Some(Verb::Patch);
    }
    if method == "DELETE" {
        return Some(Verb::Delete);
    }
    None
}

/// Whether the body of a request is read. That of a GET or DELETE is ignored.
pub fn has_body(verb: Verb) -> bool
    ensures { result ≡ has_body verb }
{
    match verb {
        Verb::Get => false,
        Verb::Post => true,
        Verb::Put => true,
        Verb::Patch => true,
        Verb::Delete => false,
    }
}

fn is_offered(methods: Methods, verb: Verb) -> bool
    ensures { result ≡ is_offered methods verb }
{
    match verb {
        Verb::Get => methods.get,
        Verb::Post => methods.post,
        Verb::Put => methods.put,
        Verb::Patch => methods.patch,
        Verb::Delete => methods.delete,
    }
}

/// The method of this name, if a line of the table offers it.
#[tactic(auto, unfolding(crate::specs::Endpoints::verb_offered))]
pub fn verb_offered(line: Line, method: &str) -> Option<Verb>
    ensures { result ≡ verb_offered line method.now }
{
    match verb_of(method) {
        Some(verb) => {
            if is_offered(line.offers, verb) {
                Some(verb)
            } else {
                None
            }
        }
        None => None,
    }
}
