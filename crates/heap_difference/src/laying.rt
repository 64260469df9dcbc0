//! The new heap behind operations, made of the old one.
ghost use Rattle.std.specs.Prelude.{◌≡◌, List, IfOk};
ghost use Rattle.ownership_model.specs.State.{State};
ghost use Rattle.heap_difference.specs.declared.shifts.Shift.{Shift};
ghost use Rattle.heap_difference.specs.Laid.{IsLaid, IsWhole, CanBeLaid};

use crate::key_set::KeySet;
use crate::numbers::Numbers;
use object_heap::{FieldPut, Heap, Put};
use std::alloc::{AllocError, Global};

/// An old heap with the difference laid over it: the new heap. At the keys of the difference it has what `new` has, an earlier heap of the new
/// run, and its handles are put into their scopes; of its objects the firm ones are laid whole, and of the others these fields.
///
/// The work is that of the difference. What the old heap alone holds is changed in place.
pub fn laid(
    alloc: Global,
    old: Heap,
    new: &Heap,
    difference: &KeySet,
    firm: &Numbers,
    puts: &[Put],
    fields: &[FieldPut],
) -> Result<Heap, AllocError>
    requires { CanBeLaid difference.now firm.now fields.now old new.now puts.now }
    ensures { IfOk result (λ h. (shifts : List Shift) (m : State)
        → IsWhole difference.now firm.now shifts fields.now
        → IsLaid difference.now shifts fields.now old new.now puts.now m → h ≡ m) }
{
    old.show_sound();
    new.show_sound();
    let handles = difference.handles.as_slice();
    let cells = difference.cells.as_slice();
    let objects = firm.as_slice();
    old.laid(alloc, new, handles, cells, objects, puts, fields)
}
