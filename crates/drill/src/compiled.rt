//! The built-in message, compiled.
ghost use Rattle.std.specs.Prelude.{◌≡◌, IfOk};
ghost use Rattle.drill.specs.BuiltIn.{message_id, drill_tables};

use crate::built_in::repository;
use message_model::{Model, ReadyError};
use repo_objects::MessageId;
use std::alloc::{AllocError, Global};

/// The compiled types of the built-in message.
pub(crate) fn compiled(alloc: Global) -> Result<Model, AllocError>
    ensures { IfOk result (λ model. model ≡ drill_tables) }
{
    crate::laws::the_message_is_compiled();
    message_model::laws::ready_is_not_refused();
    message_model::laws::one_model();
    let id = identifier();
    let repository = repository(alloc)?;
    match Model::compile(alloc, &repository, &id) {
        Ok(model) => Ok(model),
        Err(ReadyError::Broken { .. }) => unreachable!(),
        Err(ReadyError::Memory) => Err(AllocError),
    }
}

/// The identifier of the message.
fn identifier() -> MessageId
    ensures { result ≡ message_id }
{
    match MessageId::read("demo.002.001.01") {
        Some(id) => id,
        None => unreachable!(),
    }
}
