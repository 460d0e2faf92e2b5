//! A window over its input, which it meets as that comes.
ghost use Rattle.std.specs.Prelude.{◌≡◌, ◌<◌, ◌+◌, ◌^◌, ◌++◌, List, pos, if◌then◌else◌, IfOk, IfSome, MatchOption, OnErr, OnOk, None, Some, length};
ghost use Rattle.std.specs.Prelude.{drop, option_map, slice_get};
ghost use Rattle.rational.specs.Rational.{Rational, whole, ◌≈◌};
ghost use Rattle.rational.specs.Time.{shifted};
ghost use Rattle.frac128.specs.Value.{value};
ghost use Rattle.frac128.specs.declared.frac.Frac.{Frac as Time};
ghost use Rattle.pieces.specs.declared.piece.Piece.{Piece as Part};
ghost use Rattle.pieces.specs.declared.stream.Stream.{Stream as Over};
ghost use Rattle.pieces.specs.Windows.{IsSmall};
ghost use Rattle.online_robust.specs.Held.{Held};
ghost use Rattle.online_robust.specs.Putting.{HasPut};
ghost use Rattle.online_robust.specs.Slides.{CanSlide, Course, HasBegun, GoesOut, IsKeptBelow, IsOnWay};
ghost use Rattle.online_robust.specs.Slides.{IsRefused, IsTakenIn, IsUnder};
ghost use Rattle.online_robust.specs.Slides.{ReadsOn, Stays, back_offset, piece_of as piece_that, reach_of, slide_of};
ghost use Rattle.online_robust.specs.Steps.{Step, Belongs, BelongsAt, GivesOut, IsStreamedFault};
ghost use Rattle.online_robust.specs.ToldLines.{all_told, first_shape, lines_told, shape_at_end};
ghost use Rattle.online_robust.specs.declared.line.MarginLine.{MarginLine as Line};
ghost use Rattle.online_robust.specs.declared.operator.Operator.TheVariants as Op;
ghost use Rattle.online_robust.specs.Refusing.{told_by};

use crate::edges::Edges;
use crate::line::MarginLine;
use crate::put::{put_pair, put_point};
use frac128::{Cut, Frac, Memory};
use pieces::{Piece, Pieces, Reach, Stream};
use pl_signal::{Side, WidePair};
use std::alloc::Global;
use std::cmp::Ordering;
use value_laws::Margin;

/// A window: at t it goes from t + low to t + high, each end in or out. A low end of -2^32 lies before any time.
#[derive(Clone, Copy)]
pub(crate) struct Window {
    pub(crate) of: u32,
    /// The greatest is wanted, or the least.
    pub(crate) side: Side,
    pub(crate) low: i64,
    pub(crate) high: i64,
    pub(crate) low_in: bool,
    pub(crate) high_in: bool,
}

/// A window, and what it has met and told once there was a stretch.
#[derive(Drop)]
pub(crate) struct Slide {
    pub(crate) window: Window,
    pub(crate) stream: Option<Stream<Margin>>,
    /// The point at which the high end stands: it was read, and is met when the window goes on.
    pub(crate) kept: Option<Piece<Margin>>,
}

/// What a line says, up to where it ends: just after its point, or just before the end of its gap.
fn piece_of(line: &MarginLine) -> Piece<Margin>
    ensures { result ≡ piece_that line.now }
{
    let until = match line {
        MarginLine::Point { at, value: _ } => Cut { time: *at, side: 1 },
        MarginLine::Gap {
            from: _,
            to,
            piece: _,
        } => Cut { time: *to, side: 0 },
    };
    Piece {
        until,
        shape: line.margin(),
    }
}

impl Window {
    /// Its offsets.
    fn reach(&self) -> Reach
        ensures { result ≡ reach_of self.now }
    {
        Reach {
            low: self.low,
            high: self.high,
            low_in: self.low_in,
            high_in: self.high_in,
        }
    }

    /// By which offset from its number the window needs its input no more: the low one, or the high one where there is no low end.
    fn back(&self) -> i64
        ensures { result ≡ back_offset self.now }
    {
        if self.low < -4_294_967_295 {
            self.high
        } else {
            self.low
        }
    }
}

/// Lets the window meet the point that was kept, if there is one.
fn meet_kept(
    stream: &mut Stream<Margin>,
    kept: &Option<Piece<Margin>>,
    fault: &mut Option<WidePair<Margin>>,
) -> Result<(), Memory>
    requires can { (x : Course) × (e : Held) × IsOnWay x stream.old kept.now e × IsKeptBelow x stream.old kept.now }
    requires unset { fault.old ≡ None }
    ensures on { (x : Course) (e : Held) → IsOnWay x stream.old kept.now e → IsKeptBelow x stream.old kept.now → OnOk result (IsOnWay x stream.new None e) }
    ensures kept { OnOk result (Stays stream.old stream.new) }
    ensures still { OnOk result (fault.new ≡ None) }
    ensures wide { (x : Course) (e : Held) → IsOnWay x stream.old kept.now e → IsKeptBelow x stream.old kept.now
        → OnErr result (IfSome fault.new (IsRefused x)) }
{
    match kept {
        Some(piece) => stream.meet(piece, fault),
        None => Ok(()),
    }
}

/// Lets the window meet the lines that count before a time.
fn take_in(
    stream: &mut Stream<Margin>,
    of: u32,
    edges: &mut Edges,
    to: &Frac,
    fault: &mut Option<WidePair<Margin>>,
) -> Result<(), Memory>
    requires can { (x : Course) × IsOnWay x stream.old None edges.old × (x.window.of ≡ of) × (x.to ≡ value to.now) }
    requires unset { fault.old ≡ None }
    ensures on { (x : Course) → IsOnWay x stream.old None edges.old → x.window.of ≡ of → x.to ≡ value to.now
        → OnOk result (IsOnWay x stream.new None edges.new × IsTakenIn x stream.new edges.new) }
    ensures kept { OnOk result (Stays stream.old stream.new) }
    ensures read { OnOk result (ReadsOn of edges.old edges.new) }
    ensures still { OnOk result (fault.new ≡ None) }
    ensures wide { (x : Course) → IsOnWay x stream.old None edges.old → x.window.of ≡ of → x.to ≡ value to.now
        → OnErr result (IfSome fault.new (IsRefused x)) }
{
    while stream.comes(to) {
        let Some(line) = edges.unread(of) else {
            return Ok(());
        };
        let piece = piece_of(line);
        let _ = edges.pass(of);
        stream.meet(&piece, fault)?;
    }
    Ok(())
}

/// Reads the point at which the window's high end stands at a time, if it stands on one.
fn read_under(
    stream: &Stream<Margin>,
    of: u32,
    edges: &mut Edges,
    to: &Frac,
) -> Option<Piece<Margin>>
    requires can { (x : Course) × IsOnWay x stream.now None edges.old × IsTakenIn x stream.now edges.old × (x.window.of ≡ of) × (x.to ≡ value to.now) }
    ensures on { (x : Course) → IsOnWay x stream.now None edges.old → IsTakenIn x stream.now edges.old → x.window.of ≡ of → x.to ≡ value to.now
        → IsOnWay x stream.now result edges.new × IsTakenIn x stream.now edges.new × IsUnder x stream.now result }
    ensures read { ReadsOn of edges.old edges.new }
{
    let line = edges.unread(of)?;
    if !stream.stands(to) {
        return None;
    }
    let piece = piece_of(line);
    let _ = edges.pass(of);
    Some(piece)
}

/// The shape of a point, where the end of the window is in.
fn seen_under(high_in: bool, kept: &Option<Piece<Margin>>) -> Option<Margin>
    ensures { result ≡ (if high_in then option_map (λ p. p.shape) kept.now else None) }
{
    if !high_in {
        return None;
    }
    match kept {
        Some(piece) => Some(piece.shape),
        None => None,
    }
}

/// Puts a piece of what was told from a time on, and the point at its end: `point` behind the last piece. Answers up to which time the edge
/// goes now: a piece of one time is there already.
#[inline(always)]
fn put_piece(
    edges: &mut Edges,
    node: u32,
    told: &Pieces<Margin>,
    i: usize,
    at: Frac,
    point: &Margin,
) -> Result<Frac, Memory>
    requires edge { node < length edges.old.edges }
    requires place { i < length told.now.pieces }
    ensures { IfOk result (λ end. (more : List Line) × HasPut node more edges.old edges.new
        × (lines_told at (drop i told.now.pieces) point.now ≡ more ++ lines_told end (drop (i + 1) told.now.pieces) point.now)) }
{
    let piece = told.piece(i);
    let end = &piece.until.time;
    match at.cmp(end) {
        Ordering::Less => {
            let value = shape_behind(told, i, point);
            put_pair(edges, node, &at, &piece.shape, end, value)?;
            Ok(*end)
        }
        _ => Ok(at),
    }
}

/// A shape that has the value at the time at which a piece ends: of what was told, and behind it of the point.
fn shape_behind<'a>(told: &'a Pieces<Margin>, i: usize, point: &'a Margin) -> &'a Margin
    requires { i < length told.now.pieces }
    ensures { (p : Part Margin) → slice_get told.now.pieces i ≡ Some p → result.now ≡ shape_at_end p (drop (i + 1) told.now.pieces) point.now }
{
    let count = told.len();
    let piece = told.piece(i);
    if piece.until.side != 0 {
        return &piece.shape;
    }
    if i + 1 < count {
        return &told.piece(i + 1).shape;
    }
    point
}

/// The margin where what was told begins; `point` where that is all.
fn first_of(told: &Pieces<Margin>, point: &Margin) -> Margin
    ensures { result ≡ first_shape told.now.pieces point.now }
{
    if told.len() == 0 {
        return *point;
    }
    told.piece(0).shape
}

/// Puts the gaps of what was told from a time on, each with the point that ends it, and `point` at the end of the last.
fn put_gaps(
    edges: &mut Edges,
    node: u32,
    told: &Pieces<Margin>,
    from: Frac,
    point: &Margin,
) -> Result<(), Memory>
    requires { node < length edges.old.edges }
    ensures { OnOk result (HasPut node (lines_told from told.now.pieces point.now) edges.old edges.new) }
{
    let mut at = from;
    for i in 0..told.len() {
        at = put_piece(edges, node, told, i, at, point)?;
    }
    Ok(())
}

/// Puts what was told, with the point at which it begins or without, and with `point` where it ends.
fn put_told(
    edges: &mut Edges,
    node: u32,
    told: &Pieces<Margin>,
    point: &Margin,
    with_first: bool,
) -> Result<(), Memory>
    requires { node < length edges.old.edges }
    ensures { OnOk result ((at : Time) × (value at ≡ told.now.from.at)
        × HasPut node (all_told with_first at told.now.pieces point.now) edges.old edges.new) }
{
    let at = told.from().time;
    if with_first {
        put_point(edges, node, at, first_of(told, point))?;
        return put_gaps(edges, node, told, at, point);
    }
    put_gaps(edges, node, told, at, point)
}

/// The window goes on to a time: it meets what counts before, tells the best up to it, drops what it needs no more, which ends by `limit`, and
/// puts what it told.
fn go_to(
    stream: &mut Stream<Margin>,
    kept: &mut Option<Piece<Margin>>,
    window: &Window,
    edges: &mut Edges,
    node: u32,
    to: &Frac,
    limit: i64,
    with_first: bool,
    fault: &mut Option<WidePair<Margin>>,
) -> Result<(), Memory>
    requires can { (x : Course) × (from : Rational) × CanSlide x from stream.old kept.old edges.old × (x.window ≡ window.now) × (x.to ≡ value to.now) }
    requires limit { whole limit ≈ shifted (value to.now) (back_offset window.now) }
    requires edge { node < length edges.old.edges }
    requires unset { fault.old ≡ None }
    ensures gone { OnOk result
        (GoesOut window.now (value to.now) node with_first stream.old kept.old edges.old stream.new kept.new edges.new) }
    ensures still { OnOk result (fault.new ≡ None) }
    ensures wide { (x : Course) (from : Rational) → CanSlide x from stream.old kept.old edges.old → x.window ≡ window.now → x.to ≡ value to.now
        → OnErr result (IfSome fault.new (IsRefused x)) }
{
    meet_kept(stream, kept, fault)?;
    take_in(stream, window.of, edges, to, fault)?;
    *kept = read_under(stream, window.of, edges, to);
    stream.tell(to, fault)?;
    let point = stream.point(to, &seen_under(window.high_in, kept));
    edges.drop_by(window.of, limit);
    put_told(edges, node, stream.told(), &point, with_first)?;
    stream.restart();
    Ok(())
}

impl Slide {
    /// A window before anything was told.
    pub(crate) fn new(window: Window) -> Slide
        ensures { result ≡ slide_of window }
    {
        Slide {
            window,
            stream: None,
            kept: None,
        }
    }

    /// What goes over the input begins, if it has not before.
    fn begin(&mut self, alloc: Global, start: u32)
        requires { IsSmall (reach_of self.old.window) }
        ensures { (w : Over Margin) × (self.new ≡ record self.old { stream = Some w })
            × MatchOption self.old.stream (HasBegun self.old.window start w) (λ old. w ≡ old) }
    {
        if let Some(_going) = &self.stream {
            return;
        }
        self.stream = Some(Stream::begin(
            alloc,
            self.window.side,
            self.window.reach(),
            &Cut::before_whole(i64::from(start)),
            &Cut::after_whole(4_294_967_295),
        ));
    }

    /// Puts the margins of its node from where it stood, or from the start, on up to a number onto the node's edge.
    ///
    /// # Errors
    ///
    /// As those of `Operator::sweep`.
    pub(crate) fn sweep(
        &mut self,
        alloc: Global,
        edges: &mut Edges,
        node: u32,
        to: u32,
        with_first: bool,
        fault: &mut Option<WidePair<Margin>>,
    ) -> Result<(), Memory>
        requires can { BelongsAt node (Op.Slide self.old) edges.old to }
        requires edge { node < length edges.old.edges }
        requires unset { fault.old ≡ None }
        ensures out { OnOk result (GivesOut node with_first (Op.Slide self.old) to edges.old (Op.Slide self.new) edges.new) }
        ensures still { OnOk result (fault.new ≡ None) }
        ensures wide { (t : Step) → Belongs t (Op.Slide self.old) edges.old to → OnErr result (IsStreamedFault t (told_by fault.new)) }
    {
        let Some(start) = edges.start() else {
            unreachable!()
        };
        self.begin(alloc, start);
        let Some(stream) = &mut self.stream else {
            unreachable!()
        };
        let end = Frac::of(i64::from(to));
        let limit = i64::from(to) + self.window.back();
        go_to(
            stream,
            &mut self.kept,
            &self.window,
            edges,
            node,
            &end,
            limit,
            with_first,
            fault,
        )
    }
}
