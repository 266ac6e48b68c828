//! Many pages through one process: requests and answers (docs/BATCH.md).

mod answer;
mod finding;
pub mod laws;
mod places;
mod request;
mod service;
mod waiting;
mod written;

pub use answer::{BatchAnswer, Body, answer_page};
pub use finding::{FindsText, find_pages};
pub use places::{PlacesText, read_places};
pub use request::{PAGE_LIMIT, Question, RequestFront, RequestLine, parse_line, request_front_of};
pub use service::{Ended, REQUESTS, batch};
