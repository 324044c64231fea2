//! Reason phrases, statuses of refusals, and the methods of `Allow`.
ghost use Rattle.std.specs.Prelude.{◌≡◌, ◌≤◌, length};
ghost use Rattle.disco_message.specs.StatusLine.{phrase, allowed, refusal};

use disco_values::Fault;
use http::StatusCode;

/// The reason phrase of a status, which is empty where it has none.
pub(crate) fn phrase(status: StatusCode) -> &'static str
    ensures text { result.now ≡ phrase status }
    ensures short { length result.now ≤ 31 }
{
    prove!(status.as_u16() < 1000);
    match status.canonical_reason() {
        Some(phrase) => phrase,
        None => "",
    }
}

/// The status of the reply to a request that was refused.
pub fn refusal(fault: Fault) -> StatusCode
    ensures { result ≡ refusal fault }
{
    match fault {
        Fault::OutOfMemory | Fault::VersionsSpent | Fault::TooManyInstances => {
            StatusCode::SERVICE_UNAVAILABLE
        }
        Fault::BadJson | Fault::MissingField(_) | Fault::MismatchedApp | Fault::BadRequest => {
            StatusCode::BAD_REQUEST
        }
        Fault::NotFound => StatusCode::NOT_FOUND,
        Fault::DeltaDisabled => StatusCode::FORBIDDEN,
        Fault::NotAcceptable => StatusCode::NOT_ACCEPTABLE,
        Fault::HeadTooLarge => StatusCode::REQUEST_HEADER_FIELDS_TOO_LARGE,
        Fault::BodyTooLarge => StatusCode::PAYLOAD_TOO_LARGE,
        Fault::BadMethod => StatusCode::METHOD_NOT_ALLOWED,
        Fault::UnsupportedCoding => StatusCode::UNSUPPORTED_MEDIA_TYPE,
        _ => StatusCode::INTERNAL_SERVER_ERROR,
    }
}

/// The methods that a path has, as the field `Allow` lists them.
#[derive(Clone, Copy, Debug, PartialEq, Eq)]
pub enum Allow {
    Get,
    GetPost,
    GetPutDelete,
    PutDelete,
    Put,
}

impl Allow {
    /// The value of the field.
    #[tactic(auto, unfolding(crate::specs::StatusLine::allowed))]
    pub fn text(self) -> &'static [u8]
        ensures text { result.now ≡ allowed self }
        ensures short { length result.now ≤ 16 }
    {
        match self {
            Allow::Get => b"GET",
            Allow::GetPost => b"GET, POST",
            Allow::GetPutDelete => b"GET, PUT, DELETE",
            Allow::PutDelete => b"PUT, DELETE",
            Allow::Put => b"PUT",
        }
    }
}
