//! The lines of an object that is there: what holds it, why it is there, and what it retains.
ghost use Rattle.std.specs.Prelude.{◌≡◌, ◌++◌, flat_map, string_bytes, OnOk};
ghost use Rattle.retention_text.specs.Pieces.{held_text};
ghost use Rattle.retention_text.specs.Accounts.{account_text, field_owner_text, owner_text, through_text, reached_text, in_cycle_text, under_text, why_text, retained_text};

use crate::pieces::push_held;
use retention_model::{Account, Held, Place, Why};
use std::alloc::AllocError;
use text_pieces::{push_decimal, push_labelled};

/// Adds the lines.
pub fn push_account(text: &mut String, account: &Account) -> Result<(), AllocError>
    ensures { OnOk result
        (string_bytes text.new ≡ string_bytes text.old ++ account_text account.now) }
{
    push_places(text, "  held by ", &account.held)?;
    push_places(text, "  kept by weak ", &account.kept)?;
    push_why(text, &account.why)?;
    push_retained(text, account.retained)
}

// Adds a line for each place, behind a label.
fn push_places(text: &mut String, label: &str, places: &[Held]) -> Result<(), AllocError>
    ensures { OnOk result
        (string_bytes text.new ≡ string_bytes text.old
        ++ flat_map (held_text label.now) places.now) }
{
    for held in places {
        push_held(text, label, *held)?;
    }
    Ok(())
}

fn push_why(text: &mut String, why: &Why) -> Result<(), AllocError>
    ensures { OnOk result (string_bytes text.new ≡ string_bytes text.old ++ why_text why.now) }
{
    match why {
        Why::Husk => text.push_str("  husk\n"),
        Why::Reached(way) => push_reached(text, way),
        Why::InCycle(since, way, size) => push_in_cycle(text, *since, way, *size),
        Why::Under(since, way) => push_under(text, *since, way),
    }
}

fn push_in_cycle(text: &mut String, since: u32, way: &[Held], size: usize) -> Result<(), AllocError>
    ensures { OnOk result
        (string_bytes text.new ≡ string_bytes text.old ++ in_cycle_text since way.now size) }
{
    push_labelled(text, "  leaked since ", since as u64)?;
    push_labelled(text, " in a cycle among ", size as u64)?;
    text.push_str(" objects\n")?;
    push_through(text, way)?;
    Ok(())
}

fn push_under(text: &mut String, since: u32, way: &[Held]) -> Result<(), AllocError>
    ensures { OnOk result
        (string_bytes text.new ≡ string_bytes text.old ++ under_text since way.now) }
{
    push_labelled(text, "  leaked since ", since as u64)?;
    text.push_str(" under ")?;
    push_owner(text, way)?;
    text.push_str("\n")?;
    push_through(text, way)?;
    Ok(())
}

// The first place of the way has a line of its own kind.
fn push_reached(text: &mut String, way: &[Held]) -> Result<(), AllocError>
    ensures { OnOk result (string_bytes text.new ≡ string_bytes text.old ++ reached_text way.now) }
{
    let Some((first, further)) = way.split_first() else {
        return Ok(());
    };
    push_held(text, "  reached by ", *first)?;
    push_through(text, further)?;
    Ok(())
}

fn push_through(text: &mut String, way: &[Held]) -> Result<(), AllocError>
    ensures { OnOk result (string_bytes text.new ≡ string_bytes text.old ++ through_text way.now) }
{
    push_places(text, "    through ", way)
}

// The object whose field a way begins with.
fn push_owner(text: &mut String, way: &[Held]) -> Result<(), AllocError>
    ensures { OnOk result (string_bytes text.new ≡ string_bytes text.old ++ owner_text way.now) }
{
    let [first, ..] = way else {
        return Ok(());
    };
    push_field_owner(text, first.place)
}

fn push_field_owner(text: &mut String, place: Place) -> Result<(), AllocError>
    ensures { OnOk result
        (string_bytes text.new ≡ string_bytes text.old ++ field_owner_text place) }
{
    match place {
        Place::Field(object, _) => push_decimal(text, object as u64),
        Place::Handle(_, _) | Place::Cell(_) => Ok(()),
    }
}

fn push_retained(text: &mut String, retained: Option<usize>) -> Result<(), AllocError>
    ensures { OnOk result
        (string_bytes text.new ≡ string_bytes text.old ++ retained_text retained) }
{
    let Some(count) = retained else {
        return Ok(());
    };
    push_labelled(text, "  retains ", count as u64)?;
    text.push_str(" objects\n")
}
