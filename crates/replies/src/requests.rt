//! What the requests of a batch name.
ghost use Rattle.std.specs.Prelude.{◌≡◌};
ghost use Rattle.std.specs.List.{list_any};
ghost use Rattle.replies.specs.Asked.{asked_in};
ghost use Rattle.replies.specs.Refusals.{is_name_of};

use taxi_base::Name;
use taxi_text::{Asked, BatchRequest};

/// The words of a request.
pub fn asked_in(request: &BatchRequest) -> &Asked
    ensures { result.now ≡ asked_in request.now }
{
    match request {
        BatchRequest::Arrival(asked) | BatchRequest::Departure(asked) => asked,
    }
}

/// Whether one of some requests is for the flight of a name.
pub fn is_asked_for(requests: &[BatchRequest], name: &Name) -> bool
    ensures { result ≡ list_any (is_name_of name.now) requests.now }
{
    requests
        .iter()
        .any(|request| asked_in(request).flight == *name)
}
