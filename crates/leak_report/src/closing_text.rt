//! The text of what a report says of objects, leaks and husks, and of its total.
ghost use Rattle.std.specs.Prelude.{◌≡◌, count_by, OnOk};
ghost use Rattle.text_pieces.specs.Pieces.{Adds};
ghost use Rattle.leak_report.specs.Text.{ending_text, freed_text, fate_text, life_text, lives_text, holder_text, holders_text, leak_text, leaks_text, husk_text, husks_text, is_living, total_line};

use crate::lives::{Ending, Life};
use crate::shown::Report;
use ownership_model::{Holder, HuskLeft, Leak};
use std::alloc::AllocError;
use text_pieces::push_labelled;

/// Adds a line for each object that was made.
pub fn push_lives(text: &mut String, lives: &[Life]) -> Result<(), AllocError>
    ensures { OnOk result (Adds text.old text.new (lives_text lives.now)) }
{
    for life in lives {
        push_life(text, *life)?;
    }
    Ok(())
}

fn push_life(text: &mut String, life: Life) -> Result<(), AllocError>
    ensures { OnOk result (Adds text.old text.new (life_text life)) }
{
    push_labelled(text, "object ", life.object as u64)?;
    push_fate(text, life.ending, life.freed)?;
    text.push('\n')?;
    Ok(())
}

fn push_fate(
    text: &mut String,
    ending: Option<Ending>,
    freed: Option<u32>,
) -> Result<(), AllocError>
    ensures { OnOk result (Adds text.old text.new (fate_text ending freed)) }
{
    let Some(ending) = ending else {
        return text.push_str(" alive");
    };
    push_ending(text, ending)?;
    push_freed(text, freed)
}

fn push_ending(text: &mut String, ending: Ending) -> Result<(), AllocError>
    ensures { OnOk result (Adds text.old text.new (ending_text ending)) }
{
    match ending {
        Ending::Destroyed(id) => push_labelled(text, " destroyed ", id as u64),
        Ending::Unwrapped(id) => push_labelled(text, " unwrapped ", id as u64),
        Ending::Moved(id) => push_labelled(text, " moved ", id as u64),
    }
}

fn push_freed(text: &mut String, freed: Option<u32>) -> Result<(), AllocError>
    ensures { OnOk result (Adds text.old text.new (freed_text freed)) }
{
    let Some(id) = freed else {
        return Ok(());
    };
    push_labelled(text, " freed ", id as u64)
}

/// Adds a line for each leaked object.
pub fn push_leaks(text: &mut String, leaks: &[Leak]) -> Result<(), AllocError>
    ensures { OnOk result (Adds text.old text.new (leaks_text leaks.now)) }
{
    for leak in leaks {
        push_leak(text, leak)?;
    }
    Ok(())
}

fn push_leak(text: &mut String, leak: &Leak) -> Result<(), AllocError>
    ensures { OnOk result (Adds text.old text.new (leak_text leak.now)) }
{
    push_labelled(text, "leak ", leak.object as u64)?;
    text.push_str(" held by")?;
    push_holders(text, leak.holders.as_slice())?;
    text.push('\n')?;
    Ok(())
}

fn push_holders(text: &mut String, holders: &[Holder]) -> Result<(), AllocError>
    ensures { OnOk result (Adds text.old text.new (holders_text holders.now)) }
{
    for holder in holders {
        push_holder(text, *holder)?;
    }
    Ok(())
}

fn push_holder(text: &mut String, holder: Holder) -> Result<(), AllocError>
    ensures { OnOk result (Adds text.old text.new (holder_text holder)) }
{
    push_labelled(text, " ", holder.object as u64)?;
    push_labelled(text, ".", holder.field as u64)
}

/// Adds a line for each husk.
pub fn push_husks(text: &mut String, husks: &[HuskLeft]) -> Result<(), AllocError>
    ensures { OnOk result (Adds text.old text.new (husks_text husks.now)) }
{
    for husk in husks {
        push_husk(text, *husk)?;
    }
    Ok(())
}

fn push_husk(text: &mut String, husk: HuskLeft) -> Result<(), AllocError>
    ensures { OnOk result (Adds text.old text.new (husk_text husk)) }
{
    push_labelled(text, "husk ", husk.object as u64)?;
    push_labelled(text, " weak ", husk.weak)?;
    text.push('\n')?;
    Ok(())
}

/// Adds the last line.
pub fn push_total(text: &mut String, report: &Report) -> Result<(), AllocError>
    ensures { OnOk result (Adds text.old text.new (total_line report.now)) }
{
    let operations = report.operations();
    let skipped = report.skipped();
    let objects = report.lives().len();
    let alive = living(report.lives());
    let leaks = report.leaks().leaked.len();
    let husks = report.leaks().husks.len();
    push_labelled(text, "total ", operations as u64)?;
    push_labelled(text, " ops ", skipped as u64)?;
    push_labelled(text, " skipped ", objects as u64)?;
    push_labelled(text, " objects ", alive as u64)?;
    push_labelled(text, " alive ", leaks as u64)?;
    push_labelled(text, " leaks ", husks as u64)?;
    text.push_str(" husks\n")
}

fn living(lives: &[Life]) -> usize
    ensures { result ≡ count_by is_living lives.now }
{
    lives.iter().filter(|life| is_alive(life)).count()
}

fn is_alive(life: &Life) -> bool
    ensures { result ≡ is_living life.now }
{
    life.ending.is_none()
}
