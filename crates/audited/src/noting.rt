//! History and receipt each have a note of their own, since a receipt leaves with its session. Both are made before either is
//! kept.

ghost use Rattle.std.specs.Prelude.{◌≡◌, ◌↔◌, IsTrue, IfOk, OnErr};
ghost use Rattle.base.specs.declared.fault.Fault.TheVariants.{OutOfMemory};
ghost use Rattle.base.specs.declared.step.Reply.TheVariants.{Refused};
ghost use Rattle.base.specs.Replies.{note_of};
ghost use Rattle.audited.specs.Audit.{ChangesNothing};

use base::fault::Fault;
use base::step::{Note, Reply};
use std::alloc::AllocError;

/// What the history and the receipt keep of a reply. Memory can be lacking only if nothing was changed.
pub fn notes_of(reply: &Reply) -> Result<(Note, Note), AllocError>
    ensures ok { IfOk result (λ notes. (notes.0 ≡ note_of reply.now) × (notes.1 ≡ note_of reply.now)) }
    ensures err { OnErr result (ChangesNothing reply.now) }
{
    match Note::of(reply) {
        Ok(kept) => match Note::of(reply) {
            Ok(noted) => Ok((kept, noted)),
            Err(error) => Err(error),
        },
        Err(error) => Err(error),
    }
}

/// Whether the step was refused for lack of memory.
pub fn wants_memory(reply: &Reply) -> bool
    ensures { IsTrue result ↔ (reply.now ≡ Refused OutOfMemory) }
{
    match reply {
        Reply::Refused(fault) => matches!(fault, Fault::OutOfMemory),
        _ => false,
    }
}
