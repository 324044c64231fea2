//! Laws of replies.
ghost use Rattle.disco_message.specs.Laws.{CertificateLaw};

/// The certificate of a reply is what its reader finds in the head.
pub fn certificate_law()
    ensures { CertificateLaw }
{}
