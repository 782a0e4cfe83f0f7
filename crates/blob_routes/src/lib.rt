//! What a request asks, or why it is refused (`docs/http.md`, "Routes").
#![tactic(auto)]

mod before;
mod faults;
mod laws;
mod numbers;
mod pages;
mod places;
mod queries;
mod routes;
mod stats;

pub use before::boundary_of_upload;
pub use faults::AskFault;
pub use laws::further_numbers_tell_nothing;
pub use pages::{MAX_PAGE, Page, page_asked};
pub use queries::query_asked;
pub use routes::{Allowed, Route, RouteFault};
pub use stats::{MAX_REFS, refs_asked};
