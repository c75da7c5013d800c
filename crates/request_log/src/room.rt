// The room that a log's text asks for.
ghost use Rattle.std.specs.Prelude.{◌≡◌, ltb};
ghost use Rattle.request_log.specs.Room.{grow_room};

// What the table needs of the text's room.
const TABLE_ROOM: usize = 16384;
// What a line needs, for each byte of the log.
const LINE_ROOM: usize = 14;

// The text's buffer is too short for some log of this length.
#[tactic(auto, unfolding(crate::specs::Room::grow_room), using(crate::proofs::TextRoom::room_same))]
pub fn no_room(bytes: usize, room: usize) -> bool
    ensures { result ≡ ltb room (grow_room bytes) }
{
    if room < TABLE_ROOM {
        return true;
    }
    (room - TABLE_ROOM) / LINE_ROOM < bytes
}
