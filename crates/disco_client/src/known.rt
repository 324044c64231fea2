//! The form, run and version at which a copy is known.
ghost use Rattle.std.specs.Prelude.{◌≡◌};
ghost use Rattle.disco_client.specs.Tracks.{gives_way, known_at, moved, reaches, same_form};

use disco_values::{Cert, Form};

/// A form, a run of a server, and a version of the history of that run, at which a copy is known.
#[derive(Clone, Copy, Debug, PartialEq, Eq)]
pub struct Known {
    pub form: Form,
    pub run: u64,
    pub version: u64,
}

impl Known {
    /// Where a copy is known after a document of this form and certificate.
    pub fn of(form: Form, cert: Cert) -> Known
        ensures { result ≡ known_at form cert }
    {
        Known {
            form,
            run: cert.run,
            version: cert.version,
        }
    }

    /// Whether a copy that is known here is in that form.
    pub fn is_in(self, form: Form) -> bool
        ensures { result ≡ same_form self.form form }
    {
        match (self.form, form) {
            (Form::Full, Form::Full) | (Form::Compact, Form::Compact) => true,
            _ => false,
        }
    }

    /// Whether a delta reaches a copy that is known here: it is of its run, starts no later and ends
    /// no earlier.
    pub fn is_reached(self, cert: Cert) -> bool
        ensures { result ≡ reaches cert self }
    {
        cert.run == self.run && cert.base <= self.version && self.version <= cert.version
    }

    /// Whether a copy that is known here gives way to a document of all apps: to one of another run,
    /// and to one that isn't older.
    pub fn gives_way(self, cert: Cert) -> bool
        ensures { result ≡ gives_way cert self }
    {
        cert.run != self.run || self.version <= cert.version
    }

    /// Where a copy is known after a delta: where the delta puts it, if it is of the copy's form and
    /// reaches it, and else nowhere.
    pub fn moved(known: Option<Known>, form: Form, cert: Cert) -> Option<Known>
        ensures { result ≡ moved known form cert }
    {
        match known {
            Some(at) if at.is_in(form) && at.is_reached(cert) => Some(Known::of(form, cert)),
            _ => None,
        }
    }
}
