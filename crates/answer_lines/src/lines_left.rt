//! Answers whose lines are made while they are written.
ghost use Rattle.std.specs.Prelude.{◌≡◌, ◌<◌, ◌++◌, ℕ, List, [], false, IsTrue};

use crate::line_room::LineRoom;

/// The lines that are left to write of an answer. Nothing that is still to be made needs memory.
pub trait LinesLeft {
    /// It can go on.
    ghost can_go_on: { Self → Type 0 };

    /// The text is that of all lines that are left.
    ghost is_left: { Self → List ℕ → Type 0 };

    /// How many lines are left at most.
    ghost count: { Self → ℕ };

    /// Puts the next lines into the room, which is empty, until it is full, and answers whether more are left.
    fn put_some(&mut self, room: &mut LineRoom) -> bool
        requires can { can_go_on self.old }
        requires empty { room.old ≡ [] }
        ensures goes_on { IsTrue result → can_go_on self.new }
        ensures fewer { IsTrue result → count self.new < count self.old }
        ensures more { IsTrue result → (later : List ℕ) → is_left self.new later → is_left self.old (room.new ++ later) }
        ensures last { result ≡ false → is_left self.old room.new };
}
