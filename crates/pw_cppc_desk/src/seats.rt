ghost use Rattle.std.specs.Prelude.{◌≡◌, ◌<◌, ◌≤◌, ◌↔◌, [], true, Some, None, IfErr, IfOk, IfSome, length};
ghost use Rattle.pw_books.specs.Books.{Knows};
ghost use Rattle.pw_cppc.specs.History.{Legal};
ghost use Rattle.pw_books.specs.Steps.{IsIdle, IsSpare, joined, left_of, missed};
ghost use Rattle.pw_books.specs.Steps.{read_made, right_of, split_seat};
ghost use Rattle.pw_cppc_desk.specs.Plays.{mine};
ghost use Rattle.pw_cppc_desk.specs.Rule.{given_of};
ghost use Rattle.pw_cppc_desk.specs.Slots.{seat_of};
ghost use Rattle.pw_cppc_desk.specs.Tracks.{keeping};
ghost use Rattle.pw_cppc_desk.specs.Looks.{IsDraw, IsJoin, IsLook};
ghost use Rattle.pw_cppc_desk.specs.Views.{view_in};
ghost use Rattle.pw_cppc_desk.specs.Went.{Drew, JoinSteps, KeepsBoth, OneMore, SplitSteps, keeping_in};

use crate::desk::{CppcDesk, CppcSeat, TableSeat, out};
use crate::plays::{Asked, Draw, JoinSeats, Look, Share, SplitSeat};
use pw_regs::Registers;
use std::marker::Brand;

/// How many parts the seats of a desk have together.
pub const ALL_PARTS: u32 = 65536;

/// Why no seat was made.
#[derive(Drop)]
pub enum CppcSplitFault {
    /// So many seats were made, and there is no number for one more.
    Many { made: u32 },
}

impl CppcSeat {
    /// Its number. No two seats of a desk have the same.
    pub fn number(&self) -> u32
        ensures { result ≡ (view_in self.now.badge.views).number }
    {
        self.number
    }

    /// How many of the desk's 65,536 parts it has.
    pub fn parts(&self) -> u32
        ensures { result ≡ (view_in self.now.badge.views).parts }
    {
        self.parts
    }

    /// How many entries of the history it has seen.
    pub fn seen(&self) -> u32
        ensures { result ≡ length (view_in self.now.badge.views).seen }
    {
        self.seen
    }

    /// Whether it has all parts: then each other seat that was made has been joined into it.
    pub fn alone(&self) -> bool
        ensures { result ≡ true ↔ (view_in self.now.badge.views).parts ≡ 65536 }
    {
        self.parts == ALL_PARTS
    }

    /// The number of the seat that had the turn when this one last found it held; None where it never
    /// did.
    pub fn met(&self) -> Option<u32>
        ensures none { result ≡ None ↔ (view_in self.now.badge.views).meets ≡ 0 }
        ensures holder { IfSome result (λ holder. (view_in self.now.badge.views).met ≡ Some holder) }
    {
        self.met
    }
}

impl<R: Registers> CppcDesk<R> {
    ghost use Rattle.pw_cppc_desk.specs.Owning.{Owns};
    ghost use Rattle.pw_cppc_desk.specs.Splits.{IsSplit};

    /// Reads how many seats are made. What a join told is seen.
    fn look<Q: Asked>(&self, raw: &mut TableSeat<R>) -> u32
        requires id { raw.old.table_id ≡ self.now.table.shared.table_id }
        requires given { Q.given ≡ Some (given_of R.Registers self.now.table.shared.key) }
        requires idle { IsIdle raw.old.me.0.view }
        ensures id { raw.new.table_id ≡ raw.old.table_id }
        ensures slots { raw.new.me.1 ≡ raw.old.me.1 }
        ensures look { IsLook raw.old.me.0.view result raw.new.me.0.view }
        ensures legal { Legal self.now.plan raw.new.me.0.view.seen }
        ensures known { Knows seat_of raw.new.me.0.view.book raw.new.me.0.view.seen }
        ensures own { OneMore (keeping raw.old.me.0) read_made (keeping raw.new.me.0) }
    {
        self.table.shared.load::<Look<Q>>(raw, 0) as u32
    }

    /// Draws a number that no seat has, or answers how many seats are made where all are given.
    fn draw(&self, raw: &mut TableSeat<R>, read: u32) -> Result<u32, u32>
        requires id { raw.old.table_id ≡ self.now.table.shared.table_id }
        requires idle { IsIdle raw.old.me.0.view }
        requires read { (raw.old.me.0.view.read ≡ Some read) × (read ≤ 65536) }
        ensures id { raw.new.table_id ≡ raw.old.table_id }
        ensures slots { raw.new.me.1 ≡ raw.old.me.1 }
        ensures drawn { IfOk result (λ n. IsDraw raw.old.me.0.view read n raw.new.me.0.view) }
        ensures none { IfErr result (λ made. (made ≡ 65536)
            × (raw.new.me.0.view ≡ missed made raw.old.me.0.view)) }
        ensures own { Drew (keeping raw.old.me.0) result (keeping raw.new.me.0) }
    {
        let mut made = u64::from(read);
        while made < 65536 {
            let found = self
                .table
                .shared
                .compare_exchange::<Draw>(raw, 0, made, made + 1);
            if found == made {
                return Ok(made as u32);
            }
            made = found;
        }
        Err(made as u32)
    }

    /// The seat with this number, which the other drew, and these of its parts.
    fn split_seat<Q: Share>(
        &self,
        raw: &mut TableSeat<R>,
        _number: u32,
        _parts: u32,
    ) -> TableSeat<R>
        requires id { raw.old.table_id ≡ self.now.table.shared.table_id }
        requires idle { IsIdle raw.old.me.0.view × (raw.old.me.0.view.told ≡ None) }
        requires share { (Q.number ≡ _number) × (Q.parts ≡ _parts) }
        requires spare { IsSpare _number raw.old.me.0.view }
        requires parts { (0 < _parts) × (_parts < raw.old.me.0.view.parts) }
        ensures old { raw.new.table_id ≡ raw.old.table_id }
        ensures new { result.table_id ≡ raw.old.table_id }
        ensures left { mine raw.new.me ≡ (left_of _number _parts raw.old.me.0.view, raw.old.me.1) }
        ensures right { mine result.me ≡ (right_of _number _parts raw.old.me.0.view, []) }
        ensures own { OneMore (keeping raw.old.me.0) (split_seat _number _parts) (keeping raw.new.me.0) }
        ensures new_own { keeping result.me.0 ≡ ([], []) }
    {
        self.table.shared.split_seat::<SplitSeat<Q>>(raw)
    }

    /// A new seat, which has seen what this one has, with so many of its parts and a number that no
    /// seat has. It takes no memory.
    pub fn split(&self, seat: &mut CppcSeat, parts: u32) -> Result<CppcSeat, CppcSplitFault>
        requires owns { Owns self.now.table.shared.table_id seat.old }
        requires some { 0 < parts }
        requires fewer { parts < (view_in seat.old.badge.views).parts }
        ensures owns { Owns self.now.table.shared.table_id seat.new }
        ensures split { IsSplit seat.old parts result seat.new self.now.table.shared.table_id }
        ensures steps { SplitSteps parts (keeping_in seat.old.badge.views) result
            (keeping_in seat.new.badge.views) }
    {
        let seen = seat.seen;
        let mut raw: TableSeat<R> = out(&mut seat.badge);
        let read = self.look::<Brand>(&mut raw);
        let number = match self.draw(&mut raw, read) {
            Ok(number) => number,
            Err(made) => {
                seat.badge = raw.into_badge();
                return Err(CppcSplitFault::Many { made });
            }
        };
        let new = self.split_seat::<Brand>(&mut raw, number, parts);
        seat.badge = raw.into_badge();
        seat.parts -= parts;
        Ok(CppcSeat {
            badge: new.into_badge(),
            number,
            parts,
            seen,
            met: None,
        })
    }

    /// Joins another seat into this one.
    fn join_seats(&self, raw: &mut TableSeat<R>, other: TableSeat<R>)
        requires id { raw.old.table_id ≡ self.now.table.shared.table_id }
        requires other { (other.table_id ≡ self.now.table.shared.table_id) × (other.me.1 ≡ []) }
        requires idle { IsIdle raw.old.me.0.view × IsIdle other.me.0.view }
        requires none_told { (raw.old.me.0.view.told ≡ None) × (other.me.0.view.told ≡ None) }
        ensures id { raw.new.table_id ≡ raw.old.table_id }
        ensures joined { mine raw.new.me ≡ (joined raw.old.me.0.view other.me.0.view, raw.old.me.1) }
        ensures own { KeepsBoth (keeping raw.old.me.0) other.me.0.view (keeping other.me.0)
            (keeping raw.new.me.0) }
    {
        self.table.shared.join_seat::<JoinSeats>(raw, other);
    }

    /// One seat that knows what both have seen and called, with the first one's number. The steps that
    /// the other had in its keeping are in its own.
    pub fn join(&self, a: CppcSeat, b: CppcSeat) -> CppcSeat
        requires first { Owns self.now.table.shared.table_id a }
        requires second { Owns self.now.table.shared.table_id b }
        ensures owns { Owns self.now.table.shared.table_id result }
        ensures joined { IsJoin (view_in a.badge.views) (view_in b.badge.views) (view_in result.badge.views) }
        ensures legal { Legal self.now.plan (view_in result.badge.views).seen }
        ensures steps { JoinSteps (keeping_in a.badge.views) (view_in b.badge.views)
            (keeping_in b.badge.views) (keeping_in result.badge.views) }
    {
        let CppcSeat {
            mut badge,
            number,
            parts,
            seen,
            met,
        } = a;
        let CppcSeat {
            badge: mut other,
            number: _,
            parts: more,
            seen: others,
            met: _,
        } = b;
        let mut raw: TableSeat<R> = out(&mut badge);
        self.join_seats(&mut raw, out(&mut other));
        self.look::<Brand>(&mut raw);
        CppcSeat {
            badge: raw.into_badge(),
            number,
            parts: parts + more,
            seen: seen.max(others),
            met,
        }
    }
}
