// The turn table, internal to the frame run: a take that is not refused appends a turn, island, group and constraint number.
#![tactic(auto)]

ghost use Rattle.std.specs.Prelude.{◌≡◌, ◌+◌, ◌≤◌, length};
ghost use Rattle.lists.specs.Basics.{put};
ghost use Rattle.turn_table.specs.Turns.{turn_numbers, added_by_take, RoomIn, AppendedTo};

use frame::Refusal;

// A turn: which island, which group of its plan, and which constraint.
#[derive(Clone, Copy, Debug, PartialEq, Eq)]
pub struct Turn {
    pub island: u16,
    pub group: u16,
    pub number: u16,
}

// The next place of the turn table, and how many dynamic bodies were taken.
#[derive(Clone, Copy, Debug, Default, PartialEq, Eq)]
pub struct Tally {
    pub place: usize,
    pub takes: usize,
}

// The turn table as it is lent, and its tally so far.
#[derive(Drop)]
pub struct TurnTable<'a> {
    pub turns: &'a mut [u16],
    pub tally: Tally,
}

// A turn is written at its place.
fn put_turn(turns: &mut [u16], place: usize, turn: Turn)
    requires { place + 3 ≤ length turns.old }
    ensures { turns.new ≡ put place (turn_numbers turn) turns.old }
{
    turns[place] = turn.island;
    turns[place + 1] = turn.group;
    turns[place + 2] = turn.number;
}

impl TurnTable<'_> {
    // A take that is not refused says how many bodies it hands as dynamic, and makes one turn.
    #[tactic(auto, using(crate::proofs::Turns::appended_refused))]
    pub fn append(&mut self, taken: Result<usize, Refusal>, turn: Turn)
        requires { RoomIn (added_by_take turn taken) self.old }
        ensures { AppendedTo (added_by_take turn taken) self.old self.new }
    {
        if let Ok(dynamic) = taken {
            put_turn(self.turns, self.tally.place, turn);
            self.tally.place += 3;
            self.tally.takes += dynamic;
        }
    }
}
