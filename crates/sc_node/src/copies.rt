ghost use Rattle.std.specs.Prelude.{◌≡◌, IfOk};

use sc_view::View;
use std::alloc::AllocError;

/// Two copies of the view of an operation.
#[derive(Drop)]
pub(crate) struct Copies {
    /// For a record of the operation.
    pub shown: View,
    /// For the message.
    pub told: View,
}

impl Copies {
    /// Copies the view twice.
    pub(crate) fn of(view: &View) -> Result<Copies, AllocError>
        ensures { IfOk result (λ copies. copies ≡ record { shown = view.now; told = view.now }) }
    {
        let shown = view.clone()?;
        let told = view.clone()?;
        Ok(Copies { shown, told })
    }
}
