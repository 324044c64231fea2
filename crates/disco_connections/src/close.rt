//! How a connection ends.
ghost use Rattle.std.specs.Prelude.{◌≡◌};
ghost use Rattle.disco_connections.specs.Ending.{has_last_reply};

use disco_http::End;
use disco_values::Fault;

/// Whether the server ends a connection by a reply, with input possibly unread behind its request. One
/// that is closed with input unread is reset, and the last reply may be lost on its way.
pub(crate) fn has_last_reply(end: End) -> bool
    ensures { result ≡ has_last_reply end }
{
    match end {
        End::Asked | End::Limit => true,
        End::Closed | End::Fault(Fault::ReadFailed) | End::Fault(Fault::WriteFailed) => false,
        End::Fault(_) => true,
    }
}
