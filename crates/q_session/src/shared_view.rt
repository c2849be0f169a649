//! Views that several jobs share.

ghost use Rattle.std.specs.Prelude.{◌≡◌, IfOk};

use sc_view::View;
use std::alloc::{AllocError, Global};
use std::marker::Model;
use std::sync::Arc;

/// A view behind one pointer, which several owners share: a job that holds it is a few words, however many chunks the
/// view has. Contracts see it as the map of the view.
#[derive(Drop)]
pub struct SharedView {
    view: Arc<View>,
}

impl Model for SharedView {
    ghost use Rattle.sc_view.specs.Views.{ViewMap, view_code};

    ghost Value = { ViewMap };

    ghost coded = { view_code };

    ghost view = { λ s. s.view.value };
}

impl SharedView {
    /// The view, to be shared. The one error is that memory ran out (99 OutOfMemory).
    pub fn of(alloc: Global, view: View) -> Result<SharedView, AllocError>
        ensures { IfOk result (λ shared. shared ≡ view) }
    {
        Ok(SharedView {
            view: Arc::new(alloc, view)?,
        })
    }

    /// The view.
    pub fn view(&self) -> &View
        ensures { result.now ≡ self.now }
    {
        &self.view
    }
}

impl Clone for SharedView {
    ghost is_clone = { λ shared copy. copy ≡ shared };

    fn clone(&self) -> Result<SharedView, AllocError> {
        Ok(SharedView {
            view: self.view.clone()?,
        })
    }
}
