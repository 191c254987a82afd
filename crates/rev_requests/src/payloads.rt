//! The data of a command.
ghost use Rattle.std.specs.Prelude.{◌≡◌, ◌↔◌, IsTrue, IfOk};
ghost use Rattle.rev_model.specs.Client.{Bytes};
ghost use Rattle.rev_requests.specs.Plain.{plain_payload};

use rev_items::Data;
use std::alloc::{AllocError, Allocator};

/// The data of a storage command: its bytes, or, where they are more than 1048576, only how many were skipped.
#[derive(Drop)]
pub enum Payload<A: Allocator> {
    Bytes(Data<A>),
    Skipped(u32),
}

impl<A: Allocator + Clone> Payload<A> {
    /// The payload of these bytes, which are not copied.
    ///
    /// Err: a growth was refused.
    pub fn from_vec(bytes: Vec<u8, A>) -> Result<Payload<A>, AllocError>
        ensures { IfOk result (λ payload. plain_payload payload ≡ Bytes bytes.items) }
    {
        Ok(Payload::Bytes(Data::from_vec(bytes)?))
    }
}

impl<A: Allocator> Payload<A> {
    /// Equal data.
    ///
    /// Err: a growth was refused.
    pub fn copy<B: Allocator + Clone>(&self, alloc: B) -> Result<Payload<B>, AllocError>
        ensures { IfOk result (λ copy. plain_payload copy ≡ plain_payload self.now) }
    {
        match self {
            Payload::Bytes(bytes) => Payload::from_vec(bytes.as_slice().to_vec(alloc)?),
            Payload::Skipped(n) => Ok(Payload::Skipped(*n)),
        }
    }

    /// Whether the two are equal.
    pub fn is_same<B: Allocator>(&self, other: &Payload<B>) -> bool
        ensures { IsTrue result ↔ (plain_payload self.now ≡ plain_payload other.now) }
    {
        match (self, other) {
            (Payload::Bytes(bytes), Payload::Bytes(others)) => bytes.as_slice()
                == others.as_slice(),
            (Payload::Skipped(n), Payload::Skipped(m)) => *n == *m,
            (Payload::Bytes(_), Payload::Skipped(_)) => false,
            (Payload::Skipped(_), Payload::Bytes(_)) => false,
        }
    }
}
