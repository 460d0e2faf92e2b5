//! The margins of a formula as the rows of a trace come: a network of margins follows them.
ghost use Rattle.std.specs.Prelude.{◌≡◌, ◌^◌, ℕ, List, false, true, IfOk, IfErr, OnOk};
ghost use Rattle.stl_syntax.specs.Trace.{IsTrace};
ghost use Rattle.stl_syntax.specs.declared.scale.Scale.{Scale as Ticks};
ghost use Rattle.online_nodes.specs.MarginEdges.{IsPartLine};
ghost use Rattle.online_robust.specs.Nets.{IsNear};
ghost use Rattle.online_robust.specs.Pasts.{part_of as as_part};
ghost use Rattle.answer_lines.specs.PartLines.{IsPartLine as IsReported, IsPartWithin};
ghost use Rattle.trace_stream.specs.Cases.{Takes, with_row};
ghost use Rattle.trace_stream.specs.Streams.{margins};
ghost use Rattle.trace_stream.specs.Following.{Follows, HasFollowed, IsFollowedOn, IsFollowedOut, IsFollowFault, IsUnwritten};
ghost use Rattle.margin_stream.specs.Margining.{denominator_of, fault_of, Given, HasTakenAll, IsMargined, IsOfFirst, IsStanding};
ghost use Rattle.trace_stream.specs.declared.case.Case.{Case as Of};

use answer_lines::{LastPart, MarginPart, put_margin_line_after};
use frac128::Memory;
use online_robust::{MarginLine, RobustFault, RobustNet};
use pl_signal::WidePair;
use std::alloc::Global;
use stl_syntax::{Formula, Text};
use trace_reader::{Row, Rows};
use trace_stream::{Case, Follow, FollowFault};
use value_laws::Margin;

/// The network of a formula in the ticks of a trace.
#[derive(Drop)]
pub struct Margins {
    net: RobustNet,
    formula: Formula,
    /// What was written last.
    last: LastPart,
}

/// A part that the root gave out, for its line.
#[inline(always)]
fn part_of(line: &MarginLine) -> MarginPart
    requires { IsNear line.now }
    ensures within { IsPartWithin (2 ^ 34) result }
    ensures same { (scale : Ticks) (text : List ℕ) → IsReported scale result text → IsPartLine scale (as_part line.now) text }
{
    match line {
        MarginLine::Point { at, value } => MarginPart::Point {
            at: *at,
            value: *value,
        },
        MarginLine::Gap { from, to, piece } => MarginPart::Gap {
            from: *from,
            to: *to,
            piece: *piece,
        },
    }
}

/// The denominator that a pair needs.
fn denominator(pair: &WidePair<Margin>) -> u128
    ensures { result ≡ denominator_of pair.now }
{
    match pair {
        WidePair::Cross { den, .. } => *den,
        WidePair::Value { den, .. } => *den,
    }
}

/// The first fault of a network.
fn first_fault(fault: RobustFault) -> FollowFault
    requires { IsOfFirst fault }
    ensures { result ≡ fault_of fault }
{
    match fault {
        RobustFault::Wide(cause) => FollowFault::Wide {
            node: cause.node,
            den: denominator(&cause.pair),
        },
        RobustFault::Memory => FollowFault::Memory,
        RobustFault::Stopped => unreachable!(),
        RobustFault::Closed => unreachable!(),
    }
}

impl Margins {
    /// Its network, once the rows are done.
    pub fn into_net(self) -> RobustNet
        ensures { result ≡ self.net }
    {
        let Margins {
            net,
            formula: _formula,
            last: _last,
        } = self;
        net
    }

    /// Takes what the root gave out until nothing is left, and adds its lines. Each is made of the part where that stands.
    ///
    /// # Errors
    /// Want of memory.
    fn take_all(&mut self, text: &mut Text) -> Result<(), Memory>
        ensures taken { (g : Given) → IsStanding g self.old → OnOk result (HasTakenAll g self.new text.old text.new) }
        ensures formula { self.new.formula ≡ self.old.formula }
    {
        while let Some(line) = self.net.next() {
            put_margin_line_after(text, &mut self.last, &part_of(line), self.formula.scale())?;
            let _ = self.net.take();
        }
        Ok(())
    }

    /// Takes the next row, and adds to the text what it answers.
    ///
    /// # Errors
    /// A denominator of 2^60 or more, by what the rows have settled; the text is as before then. Want of memory.
    fn take_row(&mut self, row: &Row, text: &mut Text) -> Result<(), FollowFault>
        requires { HasFollowed (IsMargined false self.old) margins row.now }
        ensures followed { (c : Of) (made : List ℕ) → Follows (IsMargined false self.old) margins c made → Takes row.now c.trace
            → IfOk result (λ _. IsFollowedOn (IsMargined false self.new) margins (with_row row.now c) text.old text.new made) }
        ensures fault { (c : Of) (made : List ℕ) → Follows (IsMargined false self.old) margins c made → Takes row.now c.trace
            → IfErr result (IsFollowFault margins (with_row row.now c) false) }
        ensures unwritten { IfErr result (IsUnwritten text.old text.new) }
    {
        match self.net.feed(row) {
            Ok(()) => {}
            Err(fault) => return Err(first_fault(fault)),
        }
        match self.take_all(text) {
            Ok(()) => Ok(()),
            Err(_) => Err(FollowFault::Memory),
        }
    }

    /// Takes the end, and adds to the text what is left.
    ///
    /// # Errors
    /// As `take_row`.
    fn take_end(&mut self, text: &mut Text) -> Result<(), FollowFault>
        requires { (c : Of) × (made : List ℕ) × Follows (IsMargined false self.old) margins c made × IsTrace c.trace }
        ensures followed { (c : Of) (made : List ℕ) → Follows (IsMargined false self.old) margins c made → IsTrace c.trace
            → IfOk result (λ _. IsFollowedOut (IsMargined true self.new) margins c text.old text.new made true) }
        ensures fault { (c : Of) (made : List ℕ) → Follows (IsMargined false self.old) margins c made → IsTrace c.trace
            → IfErr result (IsFollowFault margins c true) }
        ensures unwritten { IfErr result (IsUnwritten text.old text.new) }
    {
        match self.net.close() {
            Ok(()) => {}
            Err(fault) => return Err(first_fault(fault)),
        }
        match self.take_all(text) {
            Ok(()) => Ok(()),
            Err(_) => Err(FollowFault::Memory),
        }
    }
}

impl Follow for Margins {
    ghost use Rattle.margin_stream.specs.Margining.{IsMargined};
    ghost use Rattle.trace_stream.specs.Streams.{margins};

    ghost kind = { margins };

    ghost stands = { λ s c made. IsMargined false s c made };

    ghost owes = { λ s c made. ⊥ };

    ghost ended = { λ s c made. IsMargined true s c made };

    fn begin(alloc: Global, case: Case) -> Result<Margins, Memory> {
        let Case {
            formula,
            bound,
            trace: _trace,
        } = case;
        let net = RobustNet::new(alloc, &formula, bound)?;
        Ok(Margins {
            net,
            formula,
            last: LastPart::new(),
        })
    }

    fn row(&mut self, row: &Row, text: &mut Text) -> Result<(), FollowFault> {
        match self.take_row(row, text) {
            Ok(()) => Ok(()),
            Err(fault) => Err(fault),
        }
    }

    fn take_rows(
        &mut self,
        _rows: &mut Rows,
        _piece: &[u8],
        _text: &mut Text,
    ) -> Result<usize, Memory> {
        Ok(0)
    }

    fn flush(&mut self, _text: &mut Text) -> Result<(), Memory> {
        Ok(())
    }

    fn end(&mut self, text: &mut Text) -> Result<bool, FollowFault> {
        match self.take_end(text) {
            Ok(()) => Ok(true),
            Err(fault) => Err(fault),
        }
    }
}
