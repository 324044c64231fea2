//! Replies by what was done.
ghost use Rattle.std.specs.Prelude.{◌≡◌, MatchResult, None, Some};
ghost use Rattle.disco_registry.specs.Op.{op_view};
ghost use Rattle.disco_message.specs.ReplyText.{reply_view};
ghost use Rattle.disco_server.specs.Replies.{plain, refusal_answer, success_of, shared_text, with_document};

use crate::shared::Shared;
use disco_cache::Payload;
use disco_message::{Allow, Reply, StatusCode, refusal};
use disco_registry::{Applied, Op};
use disco_values::Fault;
use std::alloc::Global;
use std::sync::Arc;

/// The reply of a status alone.
fn plain(status: StatusCode) -> Reply<Shared>
    ensures { reply_view shared_text result ≡ plain status }
{
    Reply {
        status,
        allow: None,
        document: None,
        cert: None,
    }
}

/// The reply to what is refused.
pub(crate) fn refused(fault: Fault) -> Reply<Shared>
    ensures { reply_view shared_text result ≡ refusal_answer fault }
{
    plain(refusal(fault))
}

/// The reply where a path has other methods.
pub(crate) fn lacking(allow: Allow) -> Reply<Shared>
    ensures { reply_view shared_text result ≡ record { status = 405; allow = Some allow; document = None; cert = None } }
{
    Reply {
        status: StatusCode::METHOD_NOT_ALLOWED,
        allow: Some(allow),
        document: None,
        cert: None,
    }
}

/// The reply to the load of a document, with the certificate of that.
pub(crate) fn showing(loaded: Result<Arc<Payload, Global>, Fault>) -> Reply<Shared>
    ensures { MatchResult loaded (λ d. reply_view shared_text result ≡ with_document d.value) (λ e. reply_view shared_text result ≡ refusal_answer e) }
{
    match loaded {
        Ok(payload) => Reply {
            status: StatusCode::OK,
            allow: None,
            cert: Some(payload.cert()),
            document: Some(Shared { payload }),
        },
        Err(fault) => refused(fault),
    }
}

/// The status of an operation that was accepted.
pub(crate) fn success_of(op: &Op) -> StatusCode
    ensures { result ≡ success_of (op_view op.now) }
{
    match op {
        Op::Register(_) => StatusCode::NO_CONTENT,
        _ => StatusCode::OK,
    }
}

/// The reply to an operation, which has this status where it was accepted.
pub(crate) fn wrote(applied: Result<Applied, Fault>, success: StatusCode) -> Reply<Shared>
    ensures { MatchResult applied (λ _. reply_view shared_text result ≡ plain success) (λ e. reply_view shared_text result ≡ refusal_answer e) }
{
    match applied {
        Ok(_) => plain(success),
        Err(fault) => refused(fault),
    }
}
