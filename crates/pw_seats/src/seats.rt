ghost use Rattle.std.specs.Prelude.{◌≡◌, ◌+◌, ◌<◌, All, IfNone, IfSome, sum_by, vec_capacity, vec_len};
ghost use Rattle.pw_turns.specs.Owning.{Owns};
ghost use Rattle.pw_seats.specs.Seats.{AreSeats, parts_in, parts_of};

use pw_regs::FailingRegisters;
use pw_turns::{Coordinator, Keeps, Kept, Seat};

/// A coordinator of registers in memory.
pub type Shared<K = Kept> = Coordinator<FailingRegisters, K>;

/// Takes out the seat with this number, if it is among these.
pub(crate) fn taken<K: Keeps>(
    _shared: &Shared<K>,
    seats: &mut Vec<Seat>,
    number: u32,
) -> Option<Seat>
    requires all { All (Owns _shared.now.table.shared.table_id) seats.old.items }
    ensures all { All (Owns _shared.now.table.shared.table_id) seats.new.items }
    ensures seat { IfSome result (Owns _shared.now.table.shared.table_id) }
    ensures parts { parts_in result + sum_by parts_of seats.new.items ≡ sum_by parts_of seats.old.items }
    ensures room { IfSome result (λ s. vec_len seats.new < vec_capacity seats.new) }
    ensures capacity { vec_capacity seats.new ≡ vec_capacity seats.old }
    ensures less { IfSome result (λ s. vec_len seats.new + 1 ≡ vec_len seats.old) }
    ensures none { IfNone result (vec_len seats.new ≡ vec_len seats.old) }
{
    let at = seats.iter().position(|seat| seat.number() == number)?;
    Some(seats.remove(at))
}

/// Puts a seat among the others.
pub(crate) fn put<K: Keeps>(_shared: &Shared<K>, seats: &mut Vec<Seat>, seat: Seat)
    requires all { All (Owns _shared.now.table.shared.table_id) seats.old.items }
    requires seat { Owns _shared.now.table.shared.table_id seat }
    requires room { vec_len seats.old < vec_capacity seats.old }
    ensures all { All (Owns _shared.now.table.shared.table_id) seats.new.items }
    ensures parts { sum_by parts_of seats.new.items ≡ parts_of seat + sum_by parts_of seats.old.items }
    ensures capacity { vec_capacity seats.new ≡ vec_capacity seats.old }
    ensures more { vec_len seats.new ≡ vec_len seats.old + 1 }
{
    seats.push_reserved(seat);
}

/// All seats joined into one.
pub(crate) fn gathered<K: Keeps>(shared: &Shared<K>, mut seats: Vec<Seat>) -> Seat
    requires { AreSeats shared.now.table.shared.table_id seats.items 65536 }
    ensures owns { Owns shared.now.table.shared.table_id result }
    ensures alone { parts_of result ≡ 65536 }
{
    let Some(mut seat) = seats.pop() else {
        unreachable!()
    };
    while let Some(other) = seats.pop() {
        seat = shared.join(seat, other);
    }
    seat
}
