//! The slot of a connection that a poll reports.
ghost use Rattle.std.specs.Prelude.{◌≡◌, None, Some};
ghost use Rattle.disco_connections.specs.declared.slot.Slot.TheVariants.{Waits, Served, Called};

use std::mem;

/// Where the connection of a slot is.
#[derive(Drop)]
pub enum Slot<C> {
    /// Here, until it is ready.
    Waits(C),
    /// With a worker.
    Served,
    /// With a worker, and it was ready since the worker took it.
    Called,
}

impl<C: Drop> Slot<C> {
    /// It is ready. Gives it where it waits; notes it where a worker has it.
    pub fn call(&mut self) -> Option<C>
        ensures waits { (c : C) → self.old ≡ Waits c → (result ≡ Some c) × (self.new ≡ Served) }
        ensures served { self.old ≡ Served → (result ≡ None) × (self.new ≡ Called) }
        ensures called { self.old ≡ Called → (result ≡ None) × (self.new ≡ Called) }
    {
        match mem::replace(self, Slot::Called) {
            Slot::Waits(connection) => {
                *self = Slot::Served;
                Some(connection)
            }
            Slot::Served | Slot::Called => None,
        }
    }

    /// Its worker puts it back. Gives it again where it was ready meanwhile.
    pub fn rest(&mut self, connection: C) -> Option<C>
        ensures served { self.old ≡ Served → (result ≡ None) × (self.new ≡ Waits connection) }
        ensures called { self.old ≡ Called → (result ≡ Some connection) × (self.new ≡ Served) }
    {
        match mem::replace(self, Slot::Served) {
            Slot::Called => Some(connection),
            Slot::Waits(_) | Slot::Served => {
                *self = Slot::Waits(connection);
                None
            }
        }
    }
}
