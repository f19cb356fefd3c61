//! Forms that commands read, and names in them.

ghost use Rattle.std.specs.Prelude.{◌≡◌, ◌≢◌, ◌∷◌, [], true, IfOk};
ghost use Rattle.depot_rows.specs.depot_path.Name.{is_name as name_test};
ghost use Rattle.depot_rows.specs.spec_form.declared.fault.FormFaultKind.TheVariants.{Memory};
ghost use Rattle.depot_rows.specs.depot_model.Refusals.{refusal_row};
ghost use Rattle.depot_rows.specs.depot_model.declared.refusal.Refusal.TheVariants.{BadForm};
ghost use Rattle.reply_rows.specs.Made.{told};

use depot_rows::forms::{FormFault, FormFaultKind};
use depot_rows::paths::Name;
use reply_rows::{Step, bad_form_row};
use std::alloc::{AllocError, Global};

/// The step of a form that can't be read.
pub fn unread(alloc: Global, fault: FormFault) -> Result<Step, AllocError>
    ensures known { IfOk result (λ step. fault.what ≢ Memory) }
    ensures told { IfOk result (λ step. step ≡ told (refusal_row (BadForm fault.line) ∷ [])) }
{
    match fault.what {
        FormFaultKind::Memory => Err(AllocError),
        _ => {
            let step = Step::tells(alloc, bad_form_row(alloc, fault.line)?)?;
            Ok(step)
        }
    }
}

/// The name that a text is.
pub fn named(alloc: Global, text: &[u8]) -> Result<Name, AllocError>
    requires { name_test text.now ≡ true }
    ensures { IfOk result (λ name. name ≡ text.now) }
{
    match Name::read(alloc, text) {
        Ok(name) => Ok(name),
        Err(_) => Err(AllocError),
    }
}
