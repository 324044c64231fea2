//! What a client keeps from one refresh to the next.
use disco_client::{CertifiedCopy, Copy};

/// What a client keeps: a copy by Eureka's rule, or a certified one.
#[derive(Drop)]
pub(crate) enum Kept {
    Plain(Option<Copy>),
    Certified(Option<CertifiedCopy>),
}
