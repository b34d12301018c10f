ghost use Rattle.std.specs.Prelude.{◌≡◌, ◌+◌, ◌<◌, All, IfNone, IfSome, sum_by, vec_capacity, vec_len};
ghost use Rattle.pw_cppc_desk.specs.Owning.{Owns};
ghost use Rattle.pw_seats.specs.DeskSeats.{AreSeats, parts_in, parts_of};

use pw_cppc_desk::{CppcDesk, CppcSeat};
use pw_regs::FailingRegisters;

/// A desk of registers in memory.
pub type Desk = CppcDesk<FailingRegisters>;

/// Takes out the seat with this number, if it is among these.
pub(crate) fn taken(_desk: &Desk, seats: &mut Vec<CppcSeat>, number: u32) -> Option<CppcSeat>
    requires all { All (Owns _desk.now.table.shared.table_id) seats.old.items }
    ensures all { All (Owns _desk.now.table.shared.table_id) seats.new.items }
    ensures seat { IfSome result (Owns _desk.now.table.shared.table_id) }
    ensures parts { parts_in result + sum_by parts_of seats.new.items ≡ sum_by parts_of seats.old.items }
    ensures room { IfSome result (λ s. vec_len seats.new < vec_capacity seats.new) }
    ensures capacity { vec_capacity seats.new ≡ vec_capacity seats.old }
    ensures less { IfSome result (λ s. vec_len seats.new + 1 ≡ vec_len seats.old) }
    ensures none { IfNone result (vec_len seats.new ≡ vec_len seats.old) }
{
    let at = seats.iter().position(|seat| seat.number() == number)?;
    Some(seats.remove(at))
}

/// Puts a seat among the others.
pub(crate) fn put(_desk: &Desk, seats: &mut Vec<CppcSeat>, seat: CppcSeat)
    requires all { All (Owns _desk.now.table.shared.table_id) seats.old.items }
    requires seat { Owns _desk.now.table.shared.table_id seat }
    requires room { vec_len seats.old < vec_capacity seats.old }
    ensures all { All (Owns _desk.now.table.shared.table_id) seats.new.items }
    ensures parts { sum_by parts_of seats.new.items ≡ parts_of seat + sum_by parts_of seats.old.items }
    ensures capacity { vec_capacity seats.new ≡ vec_capacity seats.old }
    ensures more { vec_len seats.new ≡ vec_len seats.old + 1 }
{
    seats.push_reserved(seat);
}

/// All seats joined into one.
pub(crate) fn gathered(desk: &Desk, mut seats: Vec<CppcSeat>) -> CppcSeat
    requires { AreSeats desk.now.table.shared.table_id seats.items 65536 }
    ensures owns { Owns desk.now.table.shared.table_id result }
    ensures alone { parts_of result ≡ 65536 }
{
    let Some(mut seat) = seats.pop() else {
        unreachable!()
    };
    while let Some(other) = seats.pop() {
        seat = desk.join(seat, other);
    }
    seat
}
