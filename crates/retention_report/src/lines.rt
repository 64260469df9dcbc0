//! The lines of objects.
ghost use Rattle.std.specs.Prelude.{◌≡◌, ◌++◌, ◌∷◌, [], ℕ, List, true, string_bytes, OnOk};
ghost use Rattle.ownership_model.specs.Reach.{has};
ghost use Rattle.ownership_model.specs.State.{nothing_held};
ghost use Rattle.ownership_model.specs.Step.{outcomes_from, end_from};
ghost use Rattle.leak_report.specs.Lives as leak_lives;
ghost use Rattle.leak_report.specs.Lives.{made_after};
ghost use Rattle.leak_report.specs.Text.{life_text};
ghost use Rattle.retention_model.specs.declared.totals.Totals.{Totals};
ghost use Rattle.retention.specs.Ends.{AreTotals};
ghost use Rattle.retention_text.specs.Pieces.{totals_text};
ghost use Rattle.retention_report.specs.Explained.{AreLifeLines, AreAccountLines, IsObjectText, AreLines};
ghost use Rattle.retention_report.specs.Sources.{IsToldOf, AreLivesOf, AreLivesIn, AreMade};

use crate::lives::life_of;
use crate::told::Told;
use leak_report::{Life, push_lives};
use retention::Lifelines;
use retention_text::{push_account, push_life, push_totals};
use std::alloc::{AllocError, Global};
use trace_types::ops::Op;

/// Adds the lines of objects that were made, one after another.
pub fn push_lines(
    text: &mut String,
    alloc: Global,
    ops: &[Op],
    lives: &[Life],
    told: &mut Told,
    objects: &[u32],
    with_lives: bool,
) -> Result<(), AllocError>
    requires told { IsToldOf with_lives ops.now told.old }
    requires lives { AreLivesIn ops.now lives.now }
    requires made { AreMade ops.now objects.now }
    ensures lines { OnOk result
        ((lines : List ℕ) × AreLines with_lives ops.now objects.now lines
        × (string_bytes text.new ≡ string_bytes text.old ++ lines)) }
    ensures told { OnOk result (IsToldOf with_lives ops.now told.new) }
{
    for object in objects {
        push_object(text, alloc, ops, lives, told, *object, with_lives)?;
    }
    Ok(())
}

// The line of the report, the lines of its life, and those of what is told of it where it is there.
fn push_object(
    text: &mut String,
    alloc: Global,
    ops: &[Op],
    lives: &[Life],
    told: &mut Told,
    object: u32,
    with_lives: bool,
) -> Result<(), AllocError>
    requires told { IsToldOf with_lives ops.now told.old }
    requires lives { AreLivesIn ops.now lives.now }
    requires made { has object (made_after [] (outcomes_from nothing_held ops.now)) ≡ true }
    ensures lines { OnOk result
        ((lines : List ℕ) × IsObjectText with_lives ops.now object lines
        × (string_bytes text.new ≡ string_bytes text.old ++ lines)) }
    ensures told { OnOk result (IsToldOf with_lives ops.now told.new) }
{
    push_report_line(text, ops, lives, object)?;
    push_life_lines(text, ops, &told.lines, object, with_lives)?;
    push_account_lines(text, alloc, ops, told, object, with_lives)?;
    Ok(())
}

fn push_report_line(
    text: &mut String,
    ops: &[Op],
    lives: &[Life],
    object: u32,
) -> Result<(), AllocError>
    requires lives { AreLivesIn ops.now lives.now }
    requires made { has object (made_after [] (outcomes_from nothing_held ops.now)) ≡ true }
    ensures { OnOk result (string_bytes text.new ≡ string_bytes text.old
        ++ life_text (leak_lives.life_of (outcomes_from nothing_held ops.now) object)) }
{
    let Some(life) = life_of(lives, object) else {
        return Ok(());
    };
    push_lives(text, &[life])?;
    Ok(())
}

fn push_life_lines(
    text: &mut String,
    ops: &[Op],
    lines: &Option<Lifelines>,
    object: u32,
    with_lives: bool,
) -> Result<(), AllocError>
    requires { AreLivesOf with_lives ops.now lines.now }
    ensures { OnOk result ((piece : List ℕ) × AreLifeLines with_lives ops.now object piece
        × (string_bytes text.new ≡ string_bytes text.old ++ piece)) }
{
    let Some(lines) = lines else {
        return Ok(());
    };
    push_life(text, ops, lines.life(object))?;
    Ok(())
}

fn push_account_lines(
    text: &mut String,
    alloc: Global,
    ops: &[Op],
    told: &mut Told,
    object: u32,
    with_lives: bool,
) -> Result<(), AllocError>
    requires { IsToldOf with_lives ops.now told.old }
    ensures lines { OnOk result
        ((piece : List ℕ) × AreAccountLines ops.now object piece
        × (string_bytes text.new ≡ string_bytes text.old ++ piece)) }
    ensures told { OnOk result (IsToldOf with_lives ops.now told.new) }
{
    let Some(index) = told.end.graph.index_of(object) else {
        return Ok(());
    };
    let account = told.accounts.tell(alloc, &told.end, index)?;
    push_account(text, &account)?;
    Ok(())
}

/// Adds the line with the totals.
pub fn push_totals_line(
    text: &mut String,
    ops: &[Op],
    told: &Told,
    with_lives: bool,
) -> Result<(), AllocError>
    requires { IsToldOf with_lives ops.now told.now }
    ensures { OnOk result ((t : Totals) × AreTotals (end_from nothing_held ops.now) t
        × (string_bytes text.new ≡ string_bytes text.old ++ totals_text t ++ 10 ∷ [])) }
{
    push_totals(text, told.end.totals())?;
    text.push_str("\n")?;
    Ok(())
}
