//! What a report shows.
ghost use Rattle.std.specs.Prelude.{◌≡◌, ◌≤◌, length, count_by, OnOk};
ghost use Rattle.text_pieces.specs.Pieces.{Adds};
ghost use Rattle.trace_types.specs.Stretches.{ops_of, outcomes_of};
ghost use Rattle.leak_report.specs.Lines.{lines_of, is_skipped_line};
ghost use Rattle.leak_report.specs.Lines as definition;
ghost use Rattle.leak_report.specs.Text.{lines_text};

use crate::line_text::push_all_lines;
use crate::lives::Life;
use ownership_model::Leaks;
use std::alloc::AllocError;
use std::marker::Model;
use trace_types::limits::MAX_OPS;
use trace_types::outcomes::{Outcome, Verdict};
use trace_types::sequence::Sequence;
use trace_types::stretches::Stretch;

/// What the operations of a trace did, what became of the objects that they made, and what leaked.
///
/// Operations and outcomes are borrowed, not copied.
#[derive(Drop)]
pub struct Report<'a> {
    stretches: Vec<Stretch<'a>>,
    lives: Sequence<Life>,
    leaks: Leaks,
}

impl<'a> Model for Report<'a> {
    ghost use Rattle.std.specs.Prelude.{◌≤◌, length};
    ghost use Rattle.trace_types.specs.Stretches.{ops_of, outcomes_of};
    ghost use Rattle.trace_types.specs.declared.limits.TheConstants.{MAX_OPS};
    ghost use Rattle.leak_report.specs.Report.{Contents};
    ghost use Rattle.leak_report.specs.Lines.{lines_of};

    ghost Value = { Contents };

    ghost view = { λ r. record {
      lines = lines_of (ops_of r.stretches.items) (outcomes_of r.stretches.items);
      lives = r.lives;
      leaks = r.leaks;
    } };

    ghost invariant = { λ r. length (ops_of r.stretches.items) ≤ MAX_OPS };
}

impl<'a> Report<'a> {
    /// A report on these stretches, one behind the other, with these lives and leaks.
    pub fn new(stretches: Vec<Stretch<'a>>, lives: Sequence<Life>, leaks: Leaks) -> Self
        requires { length (ops_of stretches.items) ≤ MAX_OPS }
        ensures { result ≡ record {
          lines = lines_of (ops_of stretches.entry.items) (outcomes_of stretches.entry.items);
          lives = lives;
          leaks = leaks;
        } }
    {
        Report {
            stretches,
            lives,
            leaks,
        }
    }

    /// How many operations there are.
    pub fn operations(&self) -> usize
        ensures { result ≡ length self.now.lines }
    {
        operations(&self.stretches)
    }

    /// How many of them were skipped. Goes through the outcomes.
    pub fn skipped(&self) -> usize
        ensures { result ≡ count_by is_skipped_line self.now.lines }
    {
        skipped(&self.stretches)
    }

    /// The lives of all objects that were made, rising.
    pub fn lives(&self) -> &[Life]
        ensures { result.now ≡ self.now.lives }
    {
        self.lives.as_slice()
    }

    pub fn leaks(&self) -> &Leaks
        ensures { result.now ≡ self.now.leaks }
    {
        &self.leaks
    }

    pub(crate) fn push_lines(&self, text: &mut String) -> Result<(), AllocError>
        ensures { OnOk result (Adds text.old text.new (lines_text self.now.lines)) }
    {
        push_all_lines(text, &self.stretches)
    }
}

fn operations(stretches: &[Stretch]) -> usize
    requires { length (ops_of stretches.now) ≤ MAX_OPS }
    ensures { result ≡ length (ops_of stretches.now) }
{
    let mut operations = 0;
    for stretch in stretches {
        operations += stretch.ops.len();
    }
    operations
}

fn skipped(stretches: &[Stretch]) -> usize
    requires { length (ops_of stretches.now) ≤ MAX_OPS }
    ensures { result
        ≡ count_by (λ outcome. definition.is_skipped outcome.verdict) (outcomes_of stretches.now) }
{
    let mut skipped = 0;
    for stretch in stretches {
        skipped += skipped_of(stretch.outcomes);
    }
    skipped
}

fn skipped_of(outcomes: &[Outcome]) -> usize
    ensures { result ≡ count_by (λ outcome. definition.is_skipped outcome.verdict) outcomes.now }
{
    outcomes
        .iter()
        .filter(|outcome| is_skipped(outcome.verdict))
        .count()
}

fn is_skipped(verdict: Verdict) -> bool
    ensures { result ≡ definition.is_skipped verdict }
{
    match verdict {
        Verdict::Did(_) => false,
        Verdict::Skipped(_) => true,
    }
}
