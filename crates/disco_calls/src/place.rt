//! Places: what paths name.

/// A place: what a path behind `/eureka/v2` names, with the names in it.
#[derive(Debug, PartialEq, Eq, Drop)]
pub enum Place<T> {
    /// `/apps` and `/apps/`: all apps.
    Apps,
    /// `/apps/delta`: what changed of late.
    Delta,
    /// `/apps/{app}`: one app.
    App { app: T },
    /// `/apps/{app}/{id}`: one instance.
    Instance { app: T, id: T },
    /// `/apps/{app}/{id}/status`: the status of an instance.
    Status { app: T, id: T },
    /// `/apps/{app}/{id}/metadata`: the metadata of an instance.
    Metadata { app: T, id: T },
    /// `/instances/{id}`: the instance of an id, of whichever app.
    Id { id: T },
    /// `/vips/{vip}`: the instances under a vip.
    Vip { vip: T },
    /// `/svips/{svip}`: the instances under a secure vip.
    Svip { svip: T },
}
