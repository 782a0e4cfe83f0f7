//! The route of a request, by its method and its path.
ghost use Rattle.std.specs.Prelude.{◌≡◌, codes};
ghost use Rattle.blob_routes.specs.Routes.{allowed_text, asked_by, stat_by, blob_by, ref_at, route_of};

use blobref::Ref;

/// What a request asks (`docs/http.md`, "Routes").
#[derive(Clone, Copy)]
pub enum Route {
    /// The bytes of a blob.
    Blob { r: Ref },
    /// Which of some refs stand. They are told in the body where it is `posted`, and else in the query.
    Stat { posted: bool },
    /// Blobs are to be kept.
    Upload,
    /// A page of the refs.
    Page,
    /// The answer to a query.
    Search,
}

/// The methods by which a path is asked.
#[derive(Clone, Copy, PartialEq, Eq)]
pub enum Allowed {
    Get,
    GetPost,
    Post,
}

/// Why a method and a path are no route.
#[derive(Clone, Copy, PartialEq, Eq)]
pub enum RouteFault {
    /// There is no such path.
    NoRoute,
    /// The path is asked by these methods alone.
    Method { allow: Allowed },
}

impl Allowed {
    /// The methods, as the header `Allow` tells them.
    pub fn text(self) -> &'static str
        ensures { result.now ≡ allowed_text self }
    {
        match self {
            Allowed::Get => "GET",
            Allowed::GetPost => "GET, POST",
            Allowed::Post => "POST",
        }
    }
}

// A route that is asked by one method.
fn asked_by(wanted: &[u8], allow: Allowed, route: Route, method: &[u8]) -> Result<Route, RouteFault>
    ensures { result ≡ asked_by wanted.now allow route method.now }
{
    if method != wanted {
        return Err(RouteFault::Method { allow });
    }
    Ok(route)
}

fn stat_by(method: &[u8]) -> Result<Route, RouteFault>
    ensures { result ≡ stat_by method.now }
{
    if method == b"GET".as_slice() {
        return Ok(Route::Stat { posted: false });
    }
    asked_by(
        b"POST",
        Allowed::GetPost,
        Route::Stat { posted: true },
        method,
    )
}

// The ref that a path names.
fn ref_at(path: &[u8]) -> Option<Ref>
    ensures { result ≡ ref_at path.now }
{
    Ref::read(path.strip_prefix(b"/camli/")?)
}

fn blob_by(method: &[u8], r: Option<Ref>) -> Result<Route, RouteFault>
    ensures { result ≡ blob_by method.now r }
{
    let Some(r) = r else {
        return Err(RouteFault::NoRoute);
    };
    asked_by(b"GET", Allowed::Get, Route::Blob { r }, method)
}

impl Route {
    /// The route that this method and this path ask (`docs/http.md`, "Routes"). Both are compared as they were sent. No
    /// memory is taken.
    #[tactic(auto, unfolding(crate::specs::Routes::route_of))]
    pub fn of(method: &[u8], path: &[u8]) -> Result<Route, RouteFault>
        ensures { result ≡ route_of method.now path.now }
    {
        if path == b"/camli/stat".as_slice() {
            return stat_by(method);
        }
        if path == b"/camli/upload".as_slice() {
            return asked_by(b"POST", Allowed::Post, Route::Upload, method);
        }
        if path == b"/camli/enumerate-blobs".as_slice() {
            return asked_by(b"GET", Allowed::Get, Route::Page, method);
        }
        if path == b"/camli/search/query".as_slice() {
            return asked_by(b"POST", Allowed::Post, Route::Search, method);
        }
        blob_by(method, ref_at(path))
    }
}
