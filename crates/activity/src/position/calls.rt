// Making a position.
ghost use Rattle.std.specs.Prelude.{◌≡◌, if◌then◌else◌, Some, None, nat_lt};
ghost use Rattle.std.specs.Option.{option_map};
ghost use Rattle.foundation.specs.Limits.{most_participants};
ghost use Rattle.activity.specs.Positions.{index_of};

use super::Position;
use foundation::MOST_PARTICIPANTS;

impl Position {
    // None where a ledger has no such place.
    pub fn new(index: usize) -> Option<Position>
        ensures { option_map index_of result ≡ (if nat_lt index most_participants then Some index else None) }
    {
        if index < MOST_PARTICIPANTS {
            Some(Position { index })
        } else {
            None
        }
    }

    pub fn index(self) -> usize
        ensures { result ≡ index_of self }
    {
        self.index
    }
}
