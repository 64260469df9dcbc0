//! How often objects are named in two heaps.
ghost use Rattle.std.specs.Prelude.{◌≡◌, ◌↔◌, ◌∷◌, [], IsTrue, IfSome, true};
ghost use Rattle.std.specs.List.{list_any};
ghost use Rattle.heap_difference.specs.Alikes.{is_alike, shift_of, shifted};

use trace_types::outcomes::Counts;

/// How often an object is named in an old heap and in a new one, strongly and weakly.
#[derive(Clone, Copy, Debug, PartialEq, Eq)]
pub struct Shift {
    pub object: u32,
    pub old_strong: u64,
    pub new_strong: u64,
    pub old_weak: u64,
    pub new_weak: u64,
}

/// The shift of an object, if there is one.
#[inline(always)]
pub fn shift_of(shifts: &[Shift], object: u32) -> Option<Shift>
    ensures { result ≡ shift_of shifts.now object }
{
    for shift in shifts {
        if shift.object == object {
            return Some(*shift);
        }
    }
    None
}

/// Whether an object has a shift.
#[inline(always)]
pub fn is_shifted(shifts: &[Shift], object: u32) -> bool
    ensures { result ≡ is_alike shifts.now object }
{
    for shift in shifts {
        if shift.object == object {
            return true;
        }
    }
    false
}

/// Counts that are told where a replay begins with the old heap, as they are told where it begins with the new one.
#[inline(always)]
pub fn shifted(shifts: &[Shift], told: Counts) -> Counts
    ensures { result ≡ shifted shifts.now told }
{
    match shift_of(shifts, told.object) {
        None => told,
        Some(shift) => Counts {
            object: told.object,
            strong: told
                .strong
                .saturating_add(shift.new_strong)
                .saturating_sub(shift.old_strong),
            weak: told
                .weak
                .saturating_add(shift.new_weak)
                .saturating_sub(shift.old_weak),
        },
    }
}
